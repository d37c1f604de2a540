// The places of the words that are lent, as the C interface has them (specs/Layout.antt): where each column begins, how far apart its words
// stand, and how many words there are.
pub(crate) const PLAN_WORDS: usize = 97;

pub(crate) const PLAN_ORDER: usize = 1;

pub(crate) const PLAN_DEADLINES: usize = 33;

pub(crate) const PLAN_CRITICALITIES: usize = 65;

pub(crate) const STATE_WORDS: usize = 614;

pub(crate) const COUNT: usize = 0;

pub(crate) const ROWS: usize = 1;

pub(crate) const MULTIPLE: usize = 2;

pub(crate) const CYCLE: usize = 3;

pub(crate) const MARKS: usize = 4;

pub(crate) const TASK_WIDTH: usize = 5;

pub(crate) const PERIODS: usize = 6;

pub(crate) const DEADLINES: usize = 7;

pub(crate) const COMPUTES: usize = 8;

pub(crate) const CRITICALITIES: usize = 9;

pub(crate) const ENFORCED: usize = 10;

pub(crate) const ROW_WIDTH: usize = 3;

pub(crate) const SENDERS: usize = 166;

pub(crate) const RECEIVERS: usize = 167;

pub(crate) const UNDELAYED: usize = 168;

pub(crate) const ORDER: usize = 358;

pub(crate) const PHASES: usize = 390;

pub(crate) const OUTPUTS: usize = 422;

pub(crate) const DISPATCHES: usize = 454;

pub(crate) const BUFFERS: usize = 486;

pub(crate) const INPUTS: usize = 550;
