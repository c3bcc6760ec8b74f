// The theorems of single commands, each as what a function promises that does nothing: one in proofs/ that no promise named could go unnoticed.
ghost use Rattle.graph.specs.Theorems.{OpeningRefusedExactly, RefusedOpeningKeeps, OpeningUsableOnly, CommandEffect, CommandAcceptance, CommandByTheRule, TransferDisjoint, CommandWordsStay, CommandRefusedExactly, RefusedCommandKeeps, CommandPlace, CommandNever34, NewEdgeCycleExactly, TransferCycleExactly, StartEdgeInExactly, StaysAcyclic, NoneHeldTwice, StaysSound, HeldAlready, CommandedCountsTrue, StaysTrue, CommandedStart, ReachesDecides, TransferTest};

// An opening is refused for want of a vertex row alone, and changes nothing then; no word past the usable rows changes.
pub fn openings()
    ensures refused { OpeningRefusedExactly }
    ensures keeps { RefusedOpeningKeeps }
    ensures usable { OpeningUsableOnly }
{}

// An accepted command changes the graph by its rule and no other word, and on a graph without a cycle a command is accepted exactly where the rule,
// as it is printed, has a step and any row that it needs is free. Of the union in a transfer's rule the two sets are disjoint.
pub fn commands_follow_the_rules()
    ensures effect { CommandEffect }
    ensures acceptance { CommandAcceptance }
    ensures rule { CommandByTheRule }
    ensures disjoint { TransferDisjoint }
    ensures words { CommandWordsStay }
{}

// Each refusal is given exactly where its reason holds and none before it does, and changes nothing.
pub fn refusals_have_their_reasons()
    ensures exactly { CommandRefusedExactly }
    ensures keeps { RefusedCommandKeeps }
    ensures place { CommandPlace }
    ensures never_34 { CommandNever34 }
    ensures new_edge_cycle { NewEdgeCycleExactly }
    ensures transfer_cycle { TransferCycleExactly }
    ensures edge_in { StartEdgeInExactly }
{}

// No command closes a cycle, holds an edge twice or makes sound tables unsound; an edge that is held already is taken and changes nothing.
pub fn commands_keep()
    ensures acyclic { StaysAcyclic }
    ensures once { NoneHeldTwice }
    ensures known { StaysSound }
    ensures held_already { HeldAlready }
{}

// After an opening and any single commands each made vertex's in-count is the number of edges held into it, so that a start answers and leaves what
// the full search of all rows and edges would.
pub fn in_counts_are_true()
    ensures commanded { CommandedCountsTrue }
    ensures stays { StaysTrue }
    ensures starts { CommandedStart }
{}

// The test of paths decides them on any tables, cyclic ones too; for a transfer it is asked of the caller alone.
pub fn paths_are_decided()
    ensures reaches { ReachesDecides }
    ensures transfer { TransferTest }
{}
