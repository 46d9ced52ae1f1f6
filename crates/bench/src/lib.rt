// What is proved of the definitions, each the contract of a function that does nothing, so that it cannot go missing.
#![tactic(auto)]

ghost use Rattle.bench.specs.Layouts.{Layouts};
ghost use Rattle.bench.specs.Bench.{Bench};
ghost use Rattle.bench.specs.Sample.{Sample};

// Every word is read and made by the widths that document 01 gives.
pub fn layouts()
    ensures { Layouts }
{}

// Document 01's bench set.
pub fn bench_set()
    ensures { Bench }
{}

// The station's sample, and a torn record.
pub fn station_sample()
    ensures { Sample }
{}
