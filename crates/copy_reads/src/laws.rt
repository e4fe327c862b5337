ghost use Rattle.copy_reads.specs.Laws.{StruckTriesGoOn};

/// Once the file that is tried first for a need is struck, those behind it are tried, in the same order.
pub fn struck_tries_go_on()
    ensures { StruckTriesGoOn }
{}
