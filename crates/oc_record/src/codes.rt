use oc_base::CodeRow;

/// The code of each kind of control record and the least length of its fields in bytes, in the order
/// of the kinds in [`Record`](crate::Record).
pub const CODES: [CodeRow; 14] = [
    CodeRow { code: 1, least: 12 },
    CodeRow { code: 2, least: 16 },
    CodeRow { code: 3, least: 0 },
    CodeRow { code: 4, least: 0 },
    CodeRow { code: 5, least: 12 },
    CodeRow { code: 6, least: 17 },
    CodeRow { code: 7, least: 8 },
    CodeRow { code: 8, least: 2 },
    CodeRow { code: 9, least: 13 },
    CodeRow { code: 10, least: 8 },
    CodeRow { code: 11, least: 8 },
    CodeRow { code: 12, least: 8 },
    CodeRow {
        code: 13,
        least: 33,
    },
    CodeRow {
        code: 14,
        least: 16,
    },
];
