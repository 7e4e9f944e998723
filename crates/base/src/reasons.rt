// Why something is refused: the first fault decides, and each has its number. docs/RULES.md has the table.
ghost use Rattle.std.specs.Prelude.{◌≡◌};
ghost use Rattle.base.specs.Reasons.{number_of};

#[derive(Clone, Copy, PartialEq, Eq)]
pub enum Reason {
    /// the file ends before a byte that its counts call for
    CutShort = 1,
    /// the file goes on after the last job record
    GoesOn = 2,
    /// more than 8 devices
    ManyDevices = 3,
    /// a move takes no time
    NoMoveTime = 4,
    /// a power that is not above what has to cost less
    Powers = 5,
    /// more than 8 tasks
    ManyTasks = 6,
    /// a period of 0, or above 4,096
    Period = 7,
    /// a task's running time of 0, or above its period
    TaskRun = 8,
    /// a device set that names a device which is not there
    DeviceSet = 9,
    /// a horizon of 0, or above 4,096
    Horizon = 10,
    /// tasks together with a horizon or with jobs
    Mixed = 11,
    /// more than 16 jobs
    ManyJobs = 12,
    /// a job that never runs, or has no room before its deadline and the horizon
    JobWindow = 13,
    /// not as many start times as jobs
    StartCount = 14,
    /// a lent list is too short
    NoRoom = 15,
    /// a job starts before its release
    Early = 16,
    /// a job ends after its deadline
    Late = 17,
    /// two jobs overlap
    Overlap = 18,
    /// there is no feasible schedule
    NoSchedule = 19,
    /// the search has more vertices than the budget
    Budget = 20,
    /// a part number that is not well formed, a part that is cut short, or too many parts
    PartNumber = 21,
    /// a part number that another part has
    PartTwice = 22,
    /// a wanted part that the catalogue lacks
    PartLacking = 23,
    /// a job that is shorter than a move of some device
    BriefJob = 24,
    /// a device that cannot be stepped
    UnlikePowers = 25,
    /// no sleep level, or more than 4
    LevelCount = 26,
    /// a quote that is stray or open
    StrayQuote = 27,
    /// another number of fields
    FieldCount = 28,
    /// a field that is no number, or too large a one
    FieldNumber = 29,
}

impl Reason {
    pub fn number(self) -> u8
        ensures { result ≡ number_of self }
    {
        self as u8
    }
}
