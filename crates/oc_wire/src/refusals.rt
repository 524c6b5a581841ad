use oc_base::CodeRow;

/// The code of each refusal of a `No` and the length in bytes of the fields after it, in the order in
/// which [`Refusal`](oc_base::Refusal) has them.
pub const REFUSALS: [CodeRow; 6] = [
    CodeRow { code: 1, least: 0 },
    CodeRow { code: 2, least: 0 },
    CodeRow { code: 3, least: 0 },
    CodeRow { code: 4, least: 0 },
    CodeRow { code: 5, least: 4 },
    CodeRow { code: 6, least: 0 },
];
