ghost use Rattle.runs.specs.Worked.{Worked};

// What the rules answer in cases that are easily got wrong.
pub fn worked_cases()
    ensures { Worked }
{}
