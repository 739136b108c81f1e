ghost use Rattle.spelling.specs.Laws.{NumberExactlyWritten, AcceptedExactlySpelled, SpelledOnce, RefusedAtFirstFault, FaultlessBefore, SameWhateverFollows, RefusedWithoutBytes};

// Digits are read as a number exactly if they are what one writes for it, and it keeps its range.
pub fn number_exactly_written()
    ensures { NumberExactlyWritten }
{}

// A sheet is accepted exactly if it is a spelling of tables within the limits, and these are the only ones that it spells.
pub fn accepted_exactly_spelled()
    ensures accepted { AcceptedExactlySpelled }
    ensures once { SpelledOnce }
{}

// A sheet is refused exactly at its first faulty line, by the first check of that line that fails.
pub fn refused_at_first_fault()
    ensures none { RefusedWithoutBytes }
    ensures first { RefusedAtFirstFault }
    ensures before { FaultlessBefore }
    ensures follows { SameWhateverFollows }
{}
