//! Views and bytes that the tests share.
use rsct_packet::ViewId;

/// 1.1.1
pub const FIRST: ViewId = ViewId {
    number: 1,
    coord: 1,
    inc: 1,
};

/// 2.1.1
pub const SECOND: ViewId = ViewId {
    number: 2,
    coord: 1,
    inc: 1,
};

/// 2.1.1, the member 1.1, and one source: 1.1.1, node 1, and of `db` the list from its start on. Its state has the
/// member 1.1.7.1, the empty value and one-phase attributes, and its one entry is a leave of that, decided at once.
pub const INSTALL: [u8; 90] = [
    0, 0, 0, 2, 1, 0, 0, 0, 1, 1, 1, 0, 0, 0, 1, 1, 0, 0, 0, 1, 1, 0, 0, 0, 1, 0, 0, 0, 1, 1, 2,
    100, 98, 0, 0, 0, 0, 1, 1, 0, 0, 0, 1, 0, 7, 0, 0, 0, 1, 0, 0, 1, 0, 1, 0, 0, 1, 0, 0, 0, 0, 0,
    0, 0, 0, 0, 0, 0, 1, 0, 0, 0, 17, 1, 2, 1, 0, 0, 0, 1, 0, 7, 0, 0, 0, 1, 0, 0, 0, 2,
];
