// The theorems of the machine, each as what a function promises that does nothing: one in proofs/ that no promise named could go unnoticed.
ghost use Rattle.machine.specs.Theorems.{ReachedDemand3, CallsDemand3, TraceDemand3, CallsReached, TraceAnswers, ApartOnce, JobsStand, AheadIsPre, RefusedLoadKeeps, LoadPlace, LoadUsableOnly, StepDoes, StepRefusedExactly, RefusedStepKeeps, StepNever34, StepPlace, EdgesAreNew, RunRan, RunStands, RunPlace, DispatchRan, DispatchStands, HandedAreJobs, MarksOnlySet, NothingWaitsNeedlessly, ReachedCountsTrue, CallsCountsTrue, TraceCountsTrue, ReachedStart, EveryFairOrder, OnwardAnswers, TraceFair, TraceInOrder, NothingWaits, ExamplesComeTrue};

// Demand 3, of whatever was reached from an accepted loading, and so of every list of calls and of every trace of an engine, by whatever steps one takes
// these to be reached.
pub fn demand_3()
    ensures reached { ReachedDemand3 }
    ensures calls { CallsDemand3 }
    ensures traces { TraceDemand3 }
{}

// From whatever was reached a list of calls, runs and dispatches among them, reaches what it answers and leaves, and a trace of an engine answers and
// leaves what its calls do.
pub fn calls_are_reached()
    ensures calls { CallsReached }
    ensures traces { TraceAnswers }
{}

// Which job comes ahead: of two jobs one body at most has them in different items, the first in the earlier; two written jobs are in such a body, or
// in two branches of a fork, or they are one; and the order is the one by recursion on code.
pub fn which_job_comes_ahead()
    ensures once { ApartOnce }
    ensures stand { JobsStand }
    ensures recursion { AheadIsPre }
{}

// A loading that is refused changes nothing, and only the refusals of the program's bytes have a place; no word past the usable rows changes.
pub fn loads()
    ensures keeps { RefusedLoadKeeps }
    ensures place { LoadPlace }
    ensures usable { LoadUsableOnly }
{}

// A step is the next command of the encoding, refused exactly where that is, and changes nothing then.
pub fn steps_are_commands()
    ensures does { StepDoes }
    ensures refused { StepRefusedExactly }
    ensures keeps { RefusedStepKeeps }
    ensures never_34 { StepNever34 }
    ensures place { StepPlace }
{}

// No step of a loaded program names an edge that is held already.
pub fn edges_are_new()
    ensures { EdgesAreNew }
{}

// A run takes only steps of the lowest vertex that can step, and stands in a list of calls as these.
pub fn runs_are_steps()
    ensures ran { RunRan }
    ensures stands { RunStands }
    ensures place { RunPlace }
{}

// A dispatch takes only steps of the lowest vertex that can step and is not busy, and stands in a list of calls as these; its list tells the jobs
// answered, and marks are only set, at their vertices.
pub fn dispatches_are_steps()
    ensures ran { DispatchRan }
    ensures stands { DispatchStands }
    ensures handed { HandedAreJobs }
    ensures marks { MarksOnlySet }
{}

// Where a dispatch ends waiting, each job that a host has not been handed yet has a job ahead of it that is still running.
pub fn nothing_waits_needlessly()
    ensures { NothingWaitsNeedlessly }
{}

// After a loading and any calls, refused ones included, each made vertex's in-count is the number of edges held into it; so a start answers and
// leaves what the full search would.
pub fn in_counts_are_true()
    ensures reached { ReachedCountsTrue }
    ensures calls { CallsCountsTrue }
    ensures traces { TraceCountsTrue }
    ensures starts { ReachedStart }
{}

// Of every accepted loading a list of jobs is the order in which some steps, ended at the full count, answer them exactly if it is fair, and a fair
// order's schedule is such a list of steps; from whatever was reached the schedule leads on to each fair order that begins with the jobs answered
// so far.
pub fn every_fair_order_can_happen()
    ensures loadings { EveryFairOrder }
    ensures onward { OnwardAnswers }
    ensures traces { TraceFair }
    ensures steps { TraceInOrder }
{}

// Where jobs are all that can be stepped, one of which all others ahead were answered can be.
pub fn nothing_waits()
    ensures { NothingWaits }
{}

// The bench examples that are proved come to what the customer says of them.
pub fn examples_come_true()
    ensures { ExamplesComeTrue }
{}
