// The third demand: over every list of calls from an accepted opening or file on, every answer, the job and the volume are the
// reference model's. Each function here does nothing; its promise is one statement of specs/Demands.antt, so that none of
// them can vanish unnoticed.
#![tactic(auto)]

pub mod read_back; // read_back.rt: what was written reads back
pub mod specimens; // specimens.rt: the paper's specimens

ghost use Rattle.demands.specs.Demands.{EveryList, RefusedStarts, FaultlessStarts, FactorsImplied, TripleSums};
ghost use Rattle.demands.specs.Demands.{MapsReal, ImagesAlike, AnalysisRestores, OrderFree, AlikeStarts};
ghost use Rattle.demands.specs.Demands.{FileOrderFree, OccupiedExactly, FileOccupied, FileAsCalls};
ghost use Rattle.demands.specs.Demands.{LaterValueCounts, InconsistentExactly, ImpossibleExactly};
ghost use Rattle.demands.specs.Shared.{SharedSynthesis};
ghost use Rattle.demands.specs.ModelPower.{ModelPower};

// Over every list of calls: answers, job and volume.
pub fn every_list()
    ensures { EveryList }
{}

// A refused start is refused by the model.
pub fn refused_starts()
    ensures { RefusedStarts }
{}

// A start whose volume is without fault does what the model does.
pub fn faultless_starts()
    ensures { FaultlessStarts }
{}

// The accepted records, or the opened map, imply every factor.
pub fn factors_implied()
    ensures { FactorsImplied }
{}

// Every value of a map is the triple sum.
pub fn triple_sums()
    ensures { TripleSums }
{}

// Every value of a map is real.
pub fn maps_real()
    ensures { MapsReal }
{}

// All images of a point carry the same value.
pub fn images_alike()
    ensures { ImagesAlike }
{}

// Analysing the map of packed factors restores them.
pub fn analysis_restores()
    ensures { AnalysisRestores }
{}

// Lists alike in opening and accepted records have the same packed factors and the same map.
pub fn order_free()
    ensures { OrderFree }
{}

// Alike starts answer every list of calls alike.
pub fn alike_starts()
    ensures { AlikeStarts }
{}

// An accepted file with its records in another order is accepted too and gives the same.
pub fn file_order_free()
    ensures { FileOrderFree }
{}

// Refusal 24 of a call exactly if F at the index is not zero.
pub fn occupied_exactly()
    ensures { OccupiedExactly }
{}

// Refusal 24 of a file exactly if a record before is of the same orbit.
pub fn file_occupied()
    ensures { FileOccupied }
{}

// A file without two records of one orbit is its records called one by one.
pub fn file_as_calls()
    ensures { FileAsCalls }
{}

// A zero and later another value for the same orbit by calls: the other value counts.
pub fn later_value_counts()
    ensures { LaterValueCounts }
{}

// Refusal 14 exactly if no whole cell has these packed factors, or this map.
pub fn inconsistent_exactly()
    ensures { InconsistentExactly }
{}

// Refusal 25 exactly of a job that no opening and no later call could have made.
pub fn impossible_exactly()
    ensures { ImpossibleExactly }
{}

// An entering and the turns that finish its lane stand in a job's list of calls as one synthesis.
pub fn shared_synthesis()
    ensures { SharedSynthesis }
{}

// The model's two powers are real, and the first is N1 N2 N3 times the second.
pub fn model_power()
    ensures { ModelPower }
{}
