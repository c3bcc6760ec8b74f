// The theorems of reading, each as what a function promises that does nothing: one in proofs/ that no promise named could go unnoticed.
ghost use Rattle.program.specs.Theorems.{ReadingExact, ReadingSound, EncodeUnique, OutsideExactly, RunOutExactly, AfterEndExactly, BlameExactly, BlameUnique, CrowdedExactly, VerticesFormula, EdgeRowsFormula, StepsFormula};

// Reading accepts exactly the encodings of trees within the limits in which every force has its future, each as its own tree.
pub fn reading_is_exact()
    ensures exactly { ReadingExact }
    ensures sound { ReadingSound }
    ensures unique { EncodeUnique }
{}

// Each refusal of a program is given exactly where its reason holds, at the place that it names.
pub fn refusals_say_what_is_wrong()
    ensures outside { OutsideExactly }
    ensures run_out { RunOutExactly }
    ensures after_end { AfterEndExactly }
    ensures blame { BlameExactly }
    ensures once { BlameUnique }
    ensures crowded { CrowdedExactly }
{}

// The formulas of vertices, edge rows and steps are what the table of commands comes to, in either edition.
pub fn formulas_are_the_encodings()
    ensures vertices { VerticesFormula }
    ensures edge_rows { EdgeRowsFormula }
    ensures steps { StepsFormula }
{}
