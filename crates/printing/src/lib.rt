// The map printer's work: from the bytes of a factor file to the text of its map, or of its refusal. The file is opened in a
// volume of the printer's own, of the length that `limits` says; the map is synthesised there, and `map_text` writes it.
#![tactic(auto)]

pub mod limits; // limits.rt: how long a file and a volume may be
pub mod map_text; // map_text.rt: the text of a map, and of a refusal
pub mod row_values; // row_values.rt: the values of a row
pub mod printer; // printer.rt: from a factor file to the text of its map

ghost use Rattle.printing.specs.Specimen.{PrintedSpecimen};
ghost use Rattle.printing.specs.Fits.{AlwaysFits};
ghost use Rattle.printing.specs.PrintedModel.{PrintsModel};
ghost use Rattle.printing.specs.ReadText.{TextReads};
ghost use Rattle.printing.specs.Orders.{TextRefusals};

// The paper's printed specimen follows from the definitions.
pub fn printed_specimen()
    ensures { PrintedSpecimen }
{}

// The text of every file fits into an output of 65,536 bytes.
pub fn always_fits()
    ensures { AlwaysFits }
{}

// The numbers of a text are read back from it.
pub fn text_reads()
    ensures { TextReads }
{}

// The text of a file within the limits is that of the reference model's map, or of its refusal.
pub fn prints_model()
    ensures { PrintsModel }
{}

// The refusals of a map's text stand in the order of the writer's.
pub fn refusal_order()
    ensures { TextRefusals }
{}
