//! Laws of the reader and of printed text.

ghost use Rattle.std.specs.Prelude.{List};
ghost use Rattle.lisp_data.specs.Datum.{Datum};
ghost use Rattle.lisp_data.specs.Values.{Val};
ghost use Rattle.lisp_reader.specs.Answers.{Answers};
ghost use Rattle.lisp_reader.specs.Calls.{Answer, Run, ReadsInOrder};
ghost use Rattle.lisp_reader.specs.Printed.{datum_of, IsPrintable, IsReadAgain, IsValueAgain};
ghost use Rattle.lisp_reader.specs.Faults.{FaultsAreFirst};
ghost use Rattle.lisp_reader.specs.Relation.{GrammarIsRelation};
ghost use Rattle.lisp_reader.specs.Texts.{TextsAreRead, PrintsAreTexts};

/// However a book is read call by call, the forms, their order and the end or first fault are the book's.
#[tactic(auto, using(crate::proofs::CallLaws::calls))]
pub fn calls_read_in_order()
    ensures { (old : Answers) (rs : List Answer) (new : Answers) → Run old rs new → ReadsInOrder old new rs }
{}

/// A whole text has no fault exactly where it is a book by the relation of forms and texts, and its forms are the relation's.
#[tactic(auto, using(crate::proofs::RelationLaws::relation_laws))]
pub fn grammar_is_a_relation()
    ensures { GrammarIsRelation }
{}

/// The forms before the first fault are the relation's, what follows them begins with no form, and each code says what stands at its place.
#[tactic(auto, using(crate::proofs::FaultLaws::fault_laws))]
pub fn faults_are_first()
    ensures { FaultsAreFirst }
{}

/// Each text of a form is read as that form: a list that begins with QUOTE may be written with a quote.
#[tactic(auto, using(crate::proofs::Again::texts))]
pub fn texts_are_read()
    ensures { TextsAreRead }
{}

/// What is printed of a form is a text of it.
#[tactic(auto, using(crate::proofs::Again::texts))]
pub fn prints_are_texts()
    ensures { PrintsAreTexts }
{}

/// What is printed of a form is read as that form.
#[tactic(auto, using(crate::proofs::Again::prints))]
pub fn forms_are_read_again()
    ensures { (d : Datum) → IsPrintable d → IsReadAgain d }
{}

/// The text of a value is read as a form of that value.
#[tactic(auto, using(crate::proofs::Again::prints))]
pub fn values_are_read_again()
    ensures { (v : Val) → IsPrintable (datum_of v) → IsValueAgain v }
{}
