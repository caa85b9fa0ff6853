// The records that the writer lists rise by h, then k, then l, each at the lowest place of its orbit.
ghost use Rattle.factor_file.specs.RecordOrder.{RecordsRise};

// The function does nothing; its promise is the statement.
pub fn records_rise()
    ensures { RecordsRise }
{}
