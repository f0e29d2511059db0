// What the two counters show at the moments that both loggers read.
//
// The up-counter, of 8 bits, starts at 250 and runs two ticks to a moment; the down-counter, with the reload 99, starts
// at 30 and runs three ticks to two moments. So both read the moments in the comments, over three wraps of the first
// and four of the second.
use down::Count;
use up::Word;

#[derive(Clone, Copy)]
pub struct Samples {
    pub up: Word,
    pub down: Count,
}

pub const UP_FIRST: Word = Word(250);

pub const DOWN_FIRST: Count = Count(30);

// A count above the reload, which the counter never shows.
pub const STRAY: Count = Count(100);

// 1025, 1040, 1090
pub const BEFORE: [Samples; 3] = [
    Samples {
        up: Word(44),
        down: Count(92),
    },
    Samples {
        up: Word(74),
        down: Count(69),
    },
    Samples {
        up: Word(175),
        down: Count(95),
    },
];

// 1100, 1160, while an errand stands in one of them
pub const DURING: [Samples; 2] = [
    Samples {
        up: Word(194),
        down: Count(79),
    },
    Samples {
        up: Word(58),
        down: Count(90),
    },
];

// 1200, 1215, 1270
pub const AFTER: [Samples; 3] = [
    Samples {
        up: Word(139),
        down: Count(30),
    },
    Samples {
        up: Word(168),
        down: Count(7),
    },
    Samples {
        up: Word(22),
        down: Count(25),
    },
];
