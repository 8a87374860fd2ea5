// Recorded answers, as recorded/README.md lays them out: their numbers are read, compared with answers that are given,
// and each difference is told. Who gives the answers is no matter here.
#![tactic(auto)]

mod list;
mod read;
mod tell;

pub use list::{Part, Parts, RECORD_BYTES, RECORD_WORDS, part_of, parts_of, records_differ};
pub use read::{u8_at, u32_at, wide_u16, wide_u32};
pub use tell::{Case, Numbers, answer_differs, differs, summary, verdict_differs};
