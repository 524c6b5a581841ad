use oc_base::CodeRow;

/// The code of each kind of message and the least length of its fields in bytes, in the order in which
/// [`Body`](crate::Body) has the kinds. A `Chunk` has two: the second is that of more bytes than two
/// bytes can count.
pub const CODES: [CodeRow; 11] = [
    CodeRow { code: 1, least: 0 },
    CodeRow { code: 2, least: 15 },
    CodeRow { code: 3, least: 9 },
    CodeRow { code: 4, least: 22 },
    CodeRow { code: 5, least: 9 },
    CodeRow {
        code: 11,
        least: 41,
    },
    CodeRow { code: 7, least: 30 },
    CodeRow { code: 8, least: 8 },
    CodeRow { code: 12, least: 1 },
    CodeRow {
        code: 13,
        least: 14,
    },
    CodeRow {
        code: 14,
        least: 65_552,
    },
];
