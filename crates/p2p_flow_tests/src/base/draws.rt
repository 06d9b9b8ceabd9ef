//! The first draws of two seeds, worked out by hand from the generator's definition.
use p2p_runtime::Draws;

// The first two words of a seed as one number, the next draws up to 9, and a shuffle of six items.
fn drawn(seed: u64) -> (u64, [u64; 4], [u8; 6]) {
    let first = Draws::new(seed).random_range(u64::MAX);
    let mut draws = Draws::new(seed);
    let digits = [
        draws.random_range(9),
        draws.random_range(9),
        draws.random_range(9),
        draws.random_range(9),
    ];
    let mut list = [0, 1, 2, 3, 4, 5];
    Draws::new(seed).shuffle(&mut list);
    (first, digits, list)
}

// Two choices, a shuffle of nothing and a draw up to 9.
fn chosen(mut draws: Draws) -> (usize, usize, u64) {
    let choices = (draws.choice(10), draws.choice(1));
    draws.shuffle::<u8>(&mut []);
    (choices.0, choices.1, draws.random_range(9))
}

#[test]
fn draws_follow_the_generator(rt: HostRuntime) {
    let zero = (18195738587432868099, [9, 9, 9, 6], [2, 0, 1, 5, 4, 3]);
    let one = (9060384754756946918, [8, 1, 5, 6], [5, 0, 4, 3, 1, 2]);
    assert!(rt; [drawn(0), drawn(1)] == [zero, one]);
    assert!(rt; chosen(Draws::new(1)) == (8, 0, 5));
}
