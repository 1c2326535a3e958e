//! Laws of the translation and of the texts of terms, each the contract of a function that does nothing.

ghost use Rattle.term_forms.specs.Printing.{IsPrintableTerm, IsTermAgain};
ghost use Rattle.terms.specs.Terms.{Tm};
ghost use Rattle.term_forms.specs.TranslationLaws.{TranslatedTermsFit, TermsAreTranslated};

/// A translated term calls known functions on variables of the scope, and keeps the limits.
pub fn translated_terms_fit()
    ensures { TranslatedTermsFit }
{}

/// The form of a term is translated to that term again.
pub fn terms_are_translated()
    ensures { TermsAreTranslated }
{}

/// The text of a term is read as its form.
#[tactic(auto, using(crate::proofs::Prints::again))]
pub fn terms_are_read_again()
    ensures { (t : Tm) → IsPrintableTerm t → IsTermAgain t }
{}
