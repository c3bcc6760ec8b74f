// The programs.

// Job 1 in an async, and job 2.
pub(crate) const ASYNC: [u8; 7] = [2, 1, 1, 0, 1, 2, 0];

// A fork of jobs 1 and 2, and job 3.
pub(crate) const FORK: [u8; 10] = [4, 1, 1, 0, 1, 2, 0, 1, 3, 0];

// Jobs 1 and 2, each in an async, and job 3.
pub(crate) const TWO_ASYNCS: [u8; 11] = [2, 1, 1, 0, 2, 1, 2, 0, 1, 3, 0];

// Job 1 in an async of an async, and job 2.
pub(crate) const INNER_ASYNC: [u8; 9] = [2, 2, 1, 1, 0, 0, 1, 2, 0];

// No job.
pub(crate) const EMPTY: [u8; 1] = [0];

// Jobs 0, 4,294,967,295 and 128.
pub(crate) const ROW: [u8; 12] = [1, 0, 1, 255, 255, 255, 255, 15, 1, 128, 1, 0];

// A finish around job 5 in an async, and job 6.
pub(crate) const FINISH: [u8; 9] = [3, 2, 1, 5, 0, 0, 1, 6, 0];

// Job 1, jobs 2 and 3, and job 4, each in an async; and job 5.
pub(crate) const ASYNCS: [u8; 17] = [2, 1, 1, 0, 2, 1, 2, 1, 3, 0, 2, 1, 4, 0, 1, 5, 0];

// A fork of two forks, of jobs 1 and 2 and of jobs 3 and 4; and job 5.
pub(crate) const TREE: [u8; 20] = [4, 4, 1, 1, 0, 1, 2, 0, 0, 4, 1, 3, 0, 1, 4, 0, 0, 1, 5, 0];

// A finish around job 1 in an async, a finish around jobs 2 and 3 in asyncs, and job 4; and job 5.
pub(crate) const NESTED: [u8; 21] = [
    3, 2, 1, 1, 0, 3, 2, 1, 2, 0, 2, 1, 3, 0, 0, 1, 4, 0, 1, 5, 0,
];

// A future of job 1; an async of a force of it and job 2; job 3, a force, and job 4.
pub(crate) const FORCED: [u8; 17] = [5, 1, 1, 0, 2, 6, 0, 1, 2, 0, 1, 3, 6, 0, 1, 4, 0];

// A future of job 1, and one of a force of it and job 2; job 3, a force of each, and job 4.
pub(crate) const FUTURES: [u8; 19] = [5, 1, 1, 0, 5, 6, 0, 1, 2, 0, 1, 3, 6, 1, 6, 0, 1, 4, 0];
