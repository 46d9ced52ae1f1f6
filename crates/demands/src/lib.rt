// What the buyer asked for, each the contract of a function that does nothing, so that it cannot go missing.
#![tactic(auto)]

ghost use Rattle.demands.specs.Demands.{RefusalsAlterNothing, ReadBack, OnlyFormed, PacketCounts, ThirdDemand, NeverUnsound};

// Demand 1: a refusal alters nothing but the stalled mark.
pub fn refusals_alter_nothing()
    ensures { RefusalsAlterNothing }
{}

// Demand 2: what the sender forms is read back field for field.
pub fn read_back()
    ensures { ReadBack }
{}

// Demand 2: what is passed as well formed is, to the byte, what 01's layout gives for its fields.
pub fn only_formed()
    ensures { OnlyFormed }
{}

// Demand 2: the packet counts are those of the history.
pub fn packet_counts()
    ensures { PacketCounts }
{}

// Demand 3: where the blocks handed over stand, and which notices a reader gets.
pub fn third_demand()
    ensures { ThirdDemand }
{}

// No call of a run after a reset is answered sizes or unsound.
pub fn never_unsound()
    ensures { NeverUnsound }
{}
