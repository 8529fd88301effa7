// The theorems on histories, over points of any type: each is the contract of a function that does nothing else.
ghost use Rattle.history.specs.Theorems.{AuditClears, AuditTells, CallKeeps, HistoryKeeps, IdleCallKeeps, MakingBegins, RoundTrip, RowNeedIsLeast, StepIsTwoLevel, StepIsTwoLevelAfter};

// Every truthful history keeps the promises, for every meaning with the laws.
pub fn history_keeps_promises<P>()
    ensures { HistoryKeeps P }
{}

// A granted making begins a history, whatever the rows hold.
pub fn making_begins<P>()
    ensures { MakingBegins P }
{}

// One call more with its defined answer keeps the promises.
pub fn call_keeps<P>()
    ensures { CallKeeps P }
{}

// A call that brings no trial leaves the state as it was.
pub fn idle_call_keeps<P>()
    ensures { IdleCallKeeps P }
{}

// An audit tells the first pair at fault.
pub fn audit_tells<P>()
    ensures { AuditTells P }
{}

// An audit tells of none exactly where all members are on the grid and their boxes are apart.
pub fn audit_clears<P>()
    ensures { AuditClears P }
{}

// The step is the two-level update over boxes.
pub fn step_is_two_level<P>()
    ensures { StepIsTwoLevel P }
{}

// And so it is after every history.
pub fn step_is_two_level_after<P>()
    ensures { StepIsTwoLevelAfter P }
{}

// Row need leaves out a largest extent, and leaving out another gives no less.
pub fn row_need_is_least<P>()
    ensures { RowNeedIsLeast P }
{}

// The blocks of a history's members, fed in order and alone to a fresh history with rows enough, give the same members.
pub fn round_trip<P>()
    ensures { RoundTrip P }
{}
