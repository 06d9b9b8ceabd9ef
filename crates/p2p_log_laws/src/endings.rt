//! Connections end for reasons that their entries show, and what routers hear of an older one comes before what they hear of a newer one.
ghost use Rattle.std.specs.Prelude.{List};
ghost use Rattle.p2p_log.specs.declared.config.Config.{Config};
ghost use Rattle.p2p_log.specs.declared.event.Event.{Event};
ghost use Rattle.p2p_log.specs.declared.entry.Entry.{Entry};
ghost use Rattle.p2p_log_rules.specs.Lawful.{IsLawful};
ghost use Rattle.p2p_log_laws.specs.Endings.{EachEndShows, EachEndsOne, EachIsEndedOnce, ReleasesAreTimely};

/// States that each entry that ends a connection shows the reason that its reply gives: the connection had not ended and ran, and
/// the oldest of what it was told was to end; or its link is broken, as the other end was dropped or it was cut; or the oldest frame in flight towards it
/// holds neither a message nor a ping within the limit, or holds a message on a channel that is not registered; and that an entry
/// ends one connection at most, and a connection ends once at most. It does nothing.
pub fn connections_end_by_cause()
    ensures shown { (configs : List Config) (script : List Event) (log : List Entry) → IsLawful configs script log → EachEndShows configs log }
    ensures one { (configs : List Config) (script : List Event) (log : List Entry) → IsLawful configs script log → EachEndsOne log }
    ensures once { (configs : List Config) (script : List Event) (log : List Entry) → IsLawful configs script log → EachIsEndedOnce log }
{}

/// States that of two connections of a node with one key the router hears that the older has ended before it hears that the newer
/// begins. It does nothing.
pub fn releases_are_timely()
    ensures { (configs : List Config) (script : List Event) (log : List Entry) → IsLawful configs script log → ReleasesAreTimely log }
{}
