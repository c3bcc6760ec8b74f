// The theorems of chains, each as what a function promises that does nothing: one in proofs/ that no promise named could go unnoticed.
ghost use Rattle.chains.specs.Theorems.{ShortestChain, NoneExactly, OnlyOne, ChainRefusedExactly, ChainAcceptedExactly, ChainShown, RefusedKeepsList, NewEdgeShown, NewEdgePasses, TransferShown, TransferPasses, ExamplesComeTrue};

// The chain of the definition is the one of which none is shorter and, of those as long, none is before it in vertex numbers; there is none exactly
// where no chain leads there.
pub fn chains_are_the_first_of_the_shortest()
    ensures first { ShortestChain }
    ensures exactly { NoneExactly }
    ensures only_one { OnlyOne }
{}

// The call is refused exactly where a reason holds and none before it does, and then leaves the list; else it has written the first of the shortest
// chains.
pub fn a_chain_is_shown_or_refused()
    ensures refused { ChainRefusedExactly }
    ensures accepted { ChainAcceptedExactly }
    ensures shown { ChainShown }
    ensures keeps { RefusedKeepsList }
{}

// A newEdge or a transfer that gets as far as its cycle test is refused with 35 exactly where there is a chain.
pub fn a_chain_is_why_a_cycle_would_close()
    ensures new_edge { NewEdgeShown }
    ensures new_edge_passes { NewEdgePasses }
    ensures transfer { TransferShown }
    ensures transfer_passes { TransferPasses }
{}

// The calls of the table come to what it says.
pub fn examples_come_true()
    ensures { ExamplesComeTrue }
{}
