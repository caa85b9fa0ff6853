// Files that were written: read back, in the order of their records, equal for equal jobs, written back; and files of no records.
//
// Each function does nothing; its promise is the statement of the same name in specs/Written.antt.
ghost use Rattle.demands.specs.Written.{ReadsBack, FileRises, EqualFiles, WrittenTwice, EmptyFiles};

// The file that was written, read back, gives the job and its factors.
pub fn reads_back()
    ensures { ReadsBack }
{}

// Its records rise by h, then k, then l, each at the lowest place of its orbit.
pub fn file_rises()
    ensures { FileRises }
{}

// Equal jobs and volumes give equal files.
pub fn equal_files()
    ensures { EqualFiles }
{}

// A file that was read is written back in one way, whatever the order of its records.
pub fn written_twice()
    ensures { WrittenTwice }
{}

// A file of no records is that of a cell whose factors are all zero, read and written.
pub fn empty_files()
    ensures { EmptyFiles }
{}
