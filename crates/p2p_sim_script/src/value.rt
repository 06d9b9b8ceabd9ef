//! A JSON value whose names and texts are borrowed from the text that it was read of.
ghost use Rattle.std.specs.Prelude.{◌≡◌, option_map, option_and_then};
ghost use Rattle.serde_json.specs.Find.{get, get_member, as_array, as_bool, as_number, as_object, as_str, as_u64};
ghost use Rattle.p2p_sim_script.specs.View.{view, items_view, members_view};

use serde_json::Number;

/// A JSON value. An object keeps its members in the order of the text, and each one of a name that comes twice.
#[derive(Drop)]
pub(crate) enum Value<'a> {
    Null,
    Bool(bool),
    Number(Number),
    String(&'a str),
    Array(Vec<Value<'a>>),
    Object(Vec<(&'a str, Value<'a>)>),
}

impl<'a> Value<'a> {
    pub(crate) fn as_bool(&self) -> Option<bool>
        ensures { result ≡ as_bool (view self.now) }
    {
        if let Value::Bool(flag) = self {
            Some(*flag)
        } else {
            None
        }
    }

    pub(crate) fn as_u64(&self) -> Option<u64>
        ensures { result ≡ option_and_then as_u64 (as_number (view self.now)) }
    {
        if let Value::Number(number) = self {
            number.as_u64()
        } else {
            None
        }
    }

    pub(crate) fn as_str(&self) -> Option<&'a str>
        ensures { option_map (λ s. s.now) result ≡ as_str (view self.now) }
    {
        if let Value::String(text) = self {
            Some(*text)
        } else {
            None
        }
    }

    pub(crate) fn as_array(&self) -> Option<&[Value<'a>]>
        ensures { option_map (λ v. items_view v.now) result ≡ as_array (view self.now) }
    {
        if let Value::Array(items) = self {
            Some(items.as_slice())
        } else {
            None
        }
    }

    pub(crate) fn as_object(&self) -> Option<&[(&'a str, Value<'a>)]>
        ensures { option_map (λ m. members_view m.now) result ≡ as_object (view self.now) }
    {
        if let Value::Object(members) = self {
            Some(members.as_slice())
        } else {
            None
        }
    }

    /// The member of that name, where this is an object: of two the later one.
    pub(crate) fn get(&self, name: &str) -> Option<&Value<'a>>
        ensures { option_map (λ v. view v.now) result ≡ get name.now (view self.now) }
    {
        if let Value::Object(members) = self {
            find(members, name)
        } else {
            None
        }
    }
}

fn find<'v, 'a>(members: &'v [(&'a str, Value<'a>)], name: &str) -> Option<&'v Value<'a>>
    ensures { option_map (λ v. view v.now) result ≡ get_member name.now (members_view members.now) }
{
    let mut left = members.len();
    'members: while left > 0 {
        left -= 1;
        let member = &members[left];
        if member.0 == name {
            return Some(&member.1);
        }
    }
    None
}
