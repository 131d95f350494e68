// Where the fields of a chain stand in its floats, counts and bytes. Floats 28 to 31 and counts 12 to 15 are free.

pub(crate) const TB_RATE: usize = 0;

pub(crate) const TB_VIRTUAL_DONE: usize = 1;

pub(crate) const TB_BUSY_SINCE: usize = 2;

pub(crate) const TB_PEAK: usize = 3;

pub(crate) const TB_LONGEST_BUSY: usize = 4;

pub(crate) const MAIN_SETTLED: usize = 5;

pub(crate) const MAIN_DECODE_TIME: usize = 6;

pub(crate) const MAIN_BYTES: usize = 7;

pub(crate) const MAIN_FIRST_INPUT_TIME: usize = 8;

pub(crate) const MAIN_REMOVED: usize = 9;

pub(crate) const MAIN_REQUIRED: usize = 10;

pub(crate) const MAIN_PEAK: usize = 11;

pub(crate) const MAIN_MAX_DELAY: usize = 12;

pub(crate) const VIDEO_SETTLED: usize = 13;

pub(crate) const VIDEO_TRANSFERRED: usize = 14;

pub(crate) const VIDEO_EB_IN: usize = 15;

pub(crate) const VIDEO_EB_REMOVED: usize = 16;

pub(crate) const VIDEO_EB_PEAK: usize = 17;

pub(crate) const VIDEO_BUSY_SINCE: usize = 18;

pub(crate) const VIDEO_LONGEST_BUSY: usize = 19;

pub(crate) const VIDEO_MB_PEAK: usize = 20;

pub(crate) const VIDEO_PROC_TIME: usize = 21;

pub(crate) const VIDEO_DECODE_TIME: usize = 22;

pub(crate) const VIDEO_BYTES: usize = 23;

pub(crate) const VIDEO_FIRST_INPUT_TIME: usize = 24;

pub(crate) const VIDEO_QUEUED: usize = 25;

pub(crate) const VIDEO_EB_REQUIRED: usize = 26;

pub(crate) const VIDEO_MAX_DELAY: usize = 27;

// The counts.

pub(crate) const MAIN_RUNS_HEAD: usize = 0;

pub(crate) const MAIN_RUNS_COUNT: usize = 1;

pub(crate) const MAIN_PENDING_HEAD: usize = 2;

pub(crate) const MAIN_PENDING_COUNT: usize = 3;

pub(crate) const MAIN_ACCESS_UNITS: usize = 4;

pub(crate) const VIDEO_RUNS_HEAD: usize = 5;

pub(crate) const VIDEO_RUNS_COUNT: usize = 6;

pub(crate) const VIDEO_MARKS_HEAD: usize = 7;

pub(crate) const VIDEO_MARKS_COUNT: usize = 8;

pub(crate) const VIDEO_PENDING_HEAD: usize = 9;

pub(crate) const VIDEO_PENDING_COUNT: usize = 10;

pub(crate) const VIDEO_ACCESS_UNITS: usize = 11;

// The bytes: the scanner, with its count in two of them.

pub(crate) const COUNT_LOW: usize = 0;

pub(crate) const COUNT_HIGH: usize = 1;

pub(crate) const STARTED: usize = 2;

pub(crate) const STREAM_ID: usize = 3;

pub(crate) const FLAGS: usize = 4;

pub(crate) const HEADER_DATA_LENGTH: usize = 5;

pub(crate) const PTS_B0: usize = 6;

pub(crate) const PTS_B1: usize = 7;

pub(crate) const PTS_B2: usize = 8;

pub(crate) const PTS_B3: usize = 9;

pub(crate) const PTS_B4: usize = 10;

pub(crate) const DTS_B0: usize = 11;

pub(crate) const DTS_B1: usize = 12;

pub(crate) const DTS_B2: usize = 13;

pub(crate) const DTS_B3: usize = 14;

pub(crate) const DTS_B4: usize = 15;
