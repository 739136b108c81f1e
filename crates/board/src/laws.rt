ghost use Rattle.board.specs.Laws.{PutKeepsLimits, ShiftWithinLimits, ReadAsPut, OthersKept, ShiftsAdd};

// A board that was made with 1 to 256 points keeps within these limits, and so does every shift over it.
pub fn limits_kept()
    ensures put { PutKeepsLimits }
    ensures shift { ShiftWithinLimits }
{}

// Words that are put at different points of a board stand there, and every other word is as it was.
pub fn put_where_asked()
    ensures read { ReadAsPut }
    ensures others { OthersKept }
{}

// Shifts pile up: two are one shift by both starts.
pub fn shifts_add()
    ensures { ShiftsAdd }
{}
