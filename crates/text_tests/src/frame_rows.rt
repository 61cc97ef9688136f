//! One frame of each kind and tag, and what reading answers where a byte of its header is raised by one.
//! The rows come from an independent program written from the format's description.
use wire_frames::FrameFault;

/// What reading answers: the frame, or a fault.
#[derive(Clone, Copy, Debug, PartialEq, Eq)]
pub enum Answer {
    Read,
    Fault(FrameFault),
}

/// A frame: its first bytes, and how many more follow, which count up in steps of 7 from 3.
pub struct Row {
    pub front: &'static [u8],
    pub more: usize,
    /// With the third byte of the length raised, then the version, the kind, the lane, the serial and the link number.
    pub raised: [Answer; 6],
}

const READ: Answer = Answer::Read;

const SHORT: Answer = Answer::Fault(FrameFault::Short);

const LENGTH: Answer = Answer::Fault(FrameFault::Malformed(0));

const KIND: Answer = Answer::Fault(FrameFault::Malformed(5));

const LANE: Answer = Answer::Fault(FrameFault::Malformed(6));

const SERIAL: Answer = Answer::Fault(FrameFault::Malformed(8));

const LINK: Answer = Answer::Fault(FrameFault::Malformed(12));

const TAG: Answer = Answer::Fault(FrameFault::Malformed(20));

const VERSION: Answer = Answer::Fault(FrameFault::Version(3));

static ROWS: [Row; 48] = [
    Row {
        front: &[
            0, 0, 0, 49, 1, 1, 0, 7, 1, 2, 3, 4, 0, 0, 0, 0, 0, 0, 0, 0, 1,
        ],
        more: 32,
        raised: [LENGTH, KIND, LENGTH, READ, READ, LINK],
    },
    Row {
        front: &[
            0, 0, 0, 33, 1, 1, 0, 7, 1, 2, 3, 4, 0, 0, 0, 0, 0, 0, 0, 0, 2,
        ],
        more: 16,
        raised: [LENGTH, KIND, LENGTH, READ, READ, LINK],
    },
    Row {
        front: &[
            0, 0, 0, 33, 1, 1, 0, 7, 1, 2, 3, 4, 0, 0, 0, 0, 0, 0, 0, 0, 3,
        ],
        more: 16,
        raised: [LENGTH, KIND, LENGTH, READ, READ, LINK],
    },
    Row {
        front: &[0, 0, 0, 64, 1, 2, 0, 7, 1, 2, 3, 4, 0, 0, 0, 0, 0, 0, 0, 0],
        more: 48,
        raised: [LENGTH, KIND, LENGTH, READ, READ, LINK],
    },
    Row {
        front: &[0, 0, 8, 64, 1, 3, 0, 7, 1, 2, 3, 4, 0, 0, 0, 0, 0, 0, 0, 0],
        more: 2096,
        raised: [SHORT, KIND, LENGTH, READ, READ, LINK],
    },
    Row {
        front: &[0, 0, 0, 36, 1, 4, 0, 7, 1, 2, 3, 4, 0, 0, 0, 0, 0, 0, 0, 0],
        more: 20,
        raised: [LENGTH, KIND, LENGTH, READ, READ, LINK],
    },
    Row {
        front: &[0, 0, 0, 176, 1, 5, 0, 7, 1, 2, 3, 4, 0, 0, 0, 0, 0, 0, 0, 0],
        more: 160,
        raised: [LENGTH, KIND, TAG, READ, READ, LINK],
    },
    Row {
        front: &[
            0, 0, 0, 17, 1, 6, 0, 7, 1, 2, 3, 4, 0, 0, 0, 0, 0, 0, 0, 0, 1,
        ],
        more: 0,
        raised: [LENGTH, KIND, LENGTH, READ, READ, LINK],
    },
    Row {
        front: &[
            0, 0, 0, 17, 1, 6, 0, 7, 1, 2, 3, 4, 0, 0, 0, 0, 0, 0, 0, 0, 2,
        ],
        more: 0,
        raised: [LENGTH, KIND, LENGTH, READ, READ, LINK],
    },
    Row {
        front: &[0, 0, 0, 48, 1, 7, 0, 7, 1, 2, 3, 4, 0, 0, 0, 0, 0, 0, 0, 0],
        more: 32,
        raised: [LENGTH, KIND, LENGTH, READ, READ, LINK],
    },
    Row {
        front: &[
            0, 0, 0, 21, 1, 8, 0, 7, 1, 2, 3, 4, 0, 0, 0, 0, 0, 0, 0, 0, 1,
        ],
        more: 4,
        raised: [LENGTH, KIND, LANE, READ, READ, LINK],
    },
    Row {
        front: &[
            0, 0, 0, 17, 1, 8, 0, 7, 1, 2, 3, 4, 0, 0, 0, 0, 0, 0, 0, 0, 2,
        ],
        more: 0,
        raised: [LENGTH, KIND, LANE, READ, READ, LINK],
    },
    Row {
        front: &[
            0, 0, 0, 49, 1, 8, 0, 7, 1, 2, 3, 4, 0, 0, 0, 0, 0, 0, 0, 0, 3,
        ],
        more: 32,
        raised: [SHORT, KIND, LENGTH, READ, READ, LINK],
    },
    Row {
        front: &[
            0, 0, 0, 21, 1, 9, 0, 0, 0, 0, 0, 0, 0, 0, 0, 0, 0, 0, 0, 0, 1,
        ],
        more: 4,
        raised: [LENGTH, KIND, SERIAL, LANE, SERIAL, LINK],
    },
    Row {
        front: &[
            0, 0, 0, 18, 1, 9, 0, 0, 0, 0, 0, 0, 0, 0, 0, 0, 0, 0, 0, 0, 2,
        ],
        more: 1,
        raised: [LENGTH, KIND, SERIAL, LANE, SERIAL, LINK],
    },
    Row {
        front: &[
            0, 0, 0, 19, 1, 9, 0, 7, 1, 2, 3, 4, 0, 0, 0, 0, 0, 0, 0, 0, 3,
        ],
        more: 2,
        raised: [LENGTH, KIND, LINK, READ, READ, LINK],
    },
    Row {
        front: &[
            0, 0, 0, 21, 1, 9, 0, 7, 1, 2, 3, 4, 0, 0, 0, 0, 0, 0, 0, 0, 4,
        ],
        more: 4,
        raised: [LENGTH, KIND, LINK, READ, READ, LINK],
    },
    Row {
        front: &[
            0, 0, 0, 18, 1, 9, 0, 7, 1, 2, 3, 4, 0, 0, 0, 0, 0, 0, 0, 0, 5,
        ],
        more: 1,
        raised: [LENGTH, KIND, LINK, READ, READ, LINK],
    },
    Row {
        front: &[
            0, 0, 0, 21, 1, 9, 0, 7, 1, 2, 3, 4, 0, 0, 0, 0, 0, 0, 0, 0, 6,
        ],
        more: 4,
        raised: [LENGTH, KIND, LINK, READ, READ, LINK],
    },
    Row {
        front: &[
            0, 0, 0, 21, 1, 9, 0, 7, 1, 2, 3, 4, 0, 0, 0, 0, 0, 0, 0, 0, 7,
        ],
        more: 4,
        raised: [LENGTH, KIND, LINK, READ, READ, LINK],
    },
    Row {
        front: &[
            0, 0, 0, 21, 1, 9, 0, 7, 1, 2, 3, 4, 0, 0, 0, 0, 0, 0, 0, 0, 8,
        ],
        more: 4,
        raised: [LENGTH, KIND, LINK, READ, READ, LINK],
    },
    Row {
        front: &[
            0, 0, 0, 21, 1, 9, 0, 7, 1, 2, 3, 4, 0, 0, 0, 0, 0, 0, 0, 0, 9,
        ],
        more: 4,
        raised: [LENGTH, KIND, LINK, READ, READ, LINK],
    },
    Row {
        front: &[
            0, 0, 0, 17, 1, 9, 0, 7, 1, 2, 3, 4, 0, 0, 0, 0, 0, 0, 0, 0, 10,
        ],
        more: 0,
        raised: [LENGTH, KIND, LINK, READ, READ, LINK],
    },
    Row {
        front: &[
            0, 0, 0, 17, 1, 9, 0, 7, 1, 2, 3, 4, 0, 0, 0, 0, 0, 0, 0, 0, 11,
        ],
        more: 0,
        raised: [LENGTH, KIND, LINK, READ, READ, LINK],
    },
    Row {
        front: &[
            0, 0, 0, 81, 1, 9, 0, 7, 1, 2, 3, 4, 0, 0, 0, 0, 0, 0, 0, 0, 12,
        ],
        more: 64,
        raised: [LENGTH, KIND, LINK, READ, READ, LINK],
    },
    Row {
        front: &[
            0, 0, 0, 25, 1, 9, 0, 7, 1, 2, 3, 4, 0, 0, 0, 0, 0, 0, 0, 0, 13,
        ],
        more: 8,
        raised: [LENGTH, KIND, LINK, READ, READ, LINK],
    },
    Row {
        front: &[
            0, 0, 0, 25, 1, 9, 0, 7, 1, 2, 3, 4, 0, 0, 0, 0, 0, 0, 0, 0, 14,
        ],
        more: 8,
        raised: [LENGTH, KIND, LINK, READ, READ, LINK],
    },
    Row {
        front: &[0, 0, 0, 32, 1, 10, 0, 7, 1, 2, 3, 4, 1, 2, 3, 4, 5, 6, 7, 8],
        more: 16,
        raised: [LENGTH, KIND, LENGTH, READ, READ, READ],
    },
    Row {
        front: &[0, 0, 8, 80, 1, 11, 0, 7, 1, 2, 3, 4, 1, 2, 3, 4, 5, 6, 7, 8],
        more: 2112,
        raised: [SHORT, KIND, LENGTH, READ, READ, READ],
    },
    Row {
        front: &[0, 0, 0, 64, 1, 12, 0, 7, 1, 2, 3, 4, 1, 2, 3, 4, 5, 6, 7, 8],
        more: 48,
        raised: [LENGTH, KIND, LENGTH, READ, READ, READ],
    },
    Row {
        front: &[0, 0, 0, 48, 1, 13, 0, 7, 1, 2, 3, 4, 1, 2, 3, 4, 5, 6, 7, 8],
        more: 32,
        raised: [LENGTH, KIND, LENGTH, READ, READ, READ],
    },
    Row {
        front: &[0, 0, 0, 20, 1, 14, 0, 7, 1, 2, 3, 4, 1, 2, 3, 4, 5, 6, 7, 8],
        more: 4,
        raised: [LENGTH, KIND, LENGTH, READ, READ, READ],
    },
    Row {
        front: &[
            0, 0, 0, 21, 1, 15, 0, 7, 1, 2, 3, 4, 1, 2, 3, 4, 5, 6, 7, 8, 1,
        ],
        more: 4,
        raised: [LENGTH, KIND, KIND, READ, READ, READ],
    },
    Row {
        front: &[
            0, 0, 0, 21, 1, 15, 0, 7, 1, 2, 3, 4, 1, 2, 3, 4, 5, 6, 7, 8, 2,
        ],
        more: 4,
        raised: [LENGTH, KIND, KIND, READ, READ, READ],
    },
    Row {
        front: &[
            0, 0, 0, 81, 1, 15, 0, 7, 1, 2, 3, 4, 1, 2, 3, 4, 5, 6, 7, 8, 3,
        ],
        more: 64,
        raised: [LENGTH, KIND, KIND, READ, READ, READ],
    },
    Row {
        front: &[
            0, 0, 0, 17, 1, 15, 0, 7, 1, 2, 3, 4, 1, 2, 3, 4, 5, 6, 7, 8, 4,
        ],
        more: 0,
        raised: [LENGTH, KIND, KIND, READ, READ, READ],
    },
    Row {
        front: &[
            0, 0, 0, 17, 1, 15, 0, 7, 1, 2, 3, 4, 1, 2, 3, 4, 5, 6, 7, 8, 5,
        ],
        more: 0,
        raised: [LENGTH, KIND, KIND, READ, READ, READ],
    },
    Row {
        front: &[
            0, 0, 0, 33, 1, 15, 0, 7, 1, 2, 3, 4, 1, 2, 3, 4, 5, 6, 7, 8, 6,
        ],
        more: 16,
        raised: [SHORT, KIND, KIND, READ, READ, READ],
    },
    Row {
        front: &[
            0, 0, 0, 20, 1, 15, 0, 7, 1, 2, 3, 4, 1, 2, 3, 4, 5, 6, 7, 8, 7, 3,
        ],
        more: 2,
        raised: [LENGTH, KIND, KIND, READ, READ, READ],
    },
    Row {
        front: &[
            0, 0, 0, 22, 1, 15, 0, 7, 1, 2, 3, 4, 1, 2, 3, 4, 5, 6, 7, 8, 7, 6,
        ],
        more: 4,
        raised: [LENGTH, KIND, KIND, READ, READ, READ],
    },
    Row {
        front: &[
            0, 0, 0, 22, 1, 15, 0, 7, 1, 2, 3, 4, 1, 2, 3, 4, 5, 6, 7, 8, 7, 7,
        ],
        more: 4,
        raised: [LENGTH, KIND, KIND, READ, READ, READ],
    },
    Row {
        front: &[
            0, 0, 0, 22, 1, 15, 0, 7, 1, 2, 3, 4, 1, 2, 3, 4, 5, 6, 7, 8, 7, 8,
        ],
        more: 4,
        raised: [LENGTH, KIND, KIND, READ, READ, READ],
    },
    Row {
        front: &[
            0, 0, 0, 22, 1, 15, 0, 7, 1, 2, 3, 4, 1, 2, 3, 4, 5, 6, 7, 8, 7, 9,
        ],
        more: 4,
        raised: [LENGTH, KIND, KIND, READ, READ, READ],
    },
    Row {
        front: &[
            0, 0, 0, 18, 1, 15, 0, 7, 1, 2, 3, 4, 1, 2, 3, 4, 5, 6, 7, 8, 7, 10,
        ],
        more: 0,
        raised: [LENGTH, KIND, KIND, READ, READ, READ],
    },
    Row {
        front: &[
            0, 0, 0, 18, 1, 15, 0, 7, 1, 2, 3, 4, 1, 2, 3, 4, 5, 6, 7, 8, 7, 11,
        ],
        more: 0,
        raised: [LENGTH, KIND, KIND, READ, READ, READ],
    },
    Row {
        front: &[0, 0, 0, 36, 2, 16, 0, 7, 1, 2, 3, 4, 0, 0, 0, 0, 0, 0, 0, 0],
        more: 20,
        raised: [LENGTH, VERSION, LINK, READ, READ, LINK],
    },
    Row {
        front: &[0, 0, 0, 20, 2, 17, 0, 7, 1, 2, 3, 4, 1, 2, 3, 4, 5, 6, 7, 8],
        more: 4,
        raised: [LENGTH, VERSION, LENGTH, READ, READ, READ],
    },
    Row {
        front: &[0, 0, 0, 52, 2, 18, 0, 7, 1, 2, 3, 4, 1, 2, 3, 4, 5, 6, 7, 8],
        more: 36,
        raised: [LENGTH, VERSION, KIND, READ, READ, READ],
    },
];

/// A row for each kind of frame.
pub fn rows() -> &'static [Row] {
    &ROWS
}
