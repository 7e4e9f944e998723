// What a request file says, as numbers: its tables. They are read from the bytes of a file and laid out as one; whether they can be planned with is for
// crate request to judge, from the bytes.
#![tactic(auto)]

mod kinds; // kinds.rt: the kinds of files, and where their device records stand
mod laying; // laying.rt: the bytes of tables, from the first to the last
mod records; // records.rt: the tables of a file

pub use crate::kinds::{device_place, device_size, kind_of, marker_size};
pub use crate::laying::{empty, file_of, push, push_pair, push_records};
pub use crate::records::{
    averaged, blank_device, device_at, devices_at, first_at, job_at, jobs_at, leveled, no_tables,
    tables_in, task_at, tasks_at,
};

// The kind of a file: what its first bytes say of the device records in it (rules 75 and 80). Tables as bytes begin with its number.
#[derive(Clone, Copy)]
pub enum Kind {
    First = 1,
    Second = 2,
    Third = 3,
}

// A device as a file gives it: the times of waking and of shutting down, the powers working and asleep, and those of the two moves; how many sleep levels there
// are, and the powers of those below the first. Files of the first and the third kind have one time and one power for both moves: there `wake` and `pwake` count,
// and `averaged` and `leveled` fill in all. Only those of the third kind have more than one level. What a kind does not tell is not written: a record whose two
// moves differ comes back from a file of the first kind with those of waking for both, and it is not refused for it (`told` in specs/Records).
#[derive(Clone, Copy)]
pub struct DeviceRecord {
    pub wake: u8,
    pub shut: u8,
    pub pw: u16,
    pub ps: u16,
    pub pwake: u16,
    pub pshut: u16,
    pub levels: u8,
    pub ps2: u16,
    pub ps3: u16,
    pub ps4: u16,
}

// A task as the file gives it: period, running time, and its device set, a bit for each device.
#[derive(Clone, Copy, Default)]
pub struct TaskRecord {
    pub period: u16,
    pub run: u16,
    pub set: u8,
}

// A job as the file gives it: release, deadline, running time and device set.
#[derive(Clone, Copy, Default)]
pub struct JobRecord {
    pub release: u16,
    pub deadline: u16,
    pub run: u16,
    pub set: u8,
}

// A table is the first `count` records of its list. The count may be larger than the list: then there are too many.
#[derive(Clone, Copy)]
pub struct Table<T, const N: usize> {
    pub count: usize,
    pub list: [T; N],
}

pub type DeviceTable = Table<DeviceRecord, 8>;

pub type TaskTable = Table<TaskRecord, 8>;

pub type JobTable = Table<JobRecord, 16>;

// The horizon field is 0 where there are tasks.
#[derive(Clone, Copy)]
pub struct Tables {
    pub kind: Kind,
    pub horizon: u16,
    pub devices: DeviceTable,
    pub tasks: TaskTable,
    pub jobs: JobTable,
}

// One of the three tables.
#[derive(Clone, Copy)]
pub enum TableName {
    Devices,
    Tasks,
    Jobs,
}

// A file in an array: its first `count` bytes.
#[derive(Clone, Copy)]
pub struct File {
    pub count: usize,
    pub bytes: [u8; 297],
}
