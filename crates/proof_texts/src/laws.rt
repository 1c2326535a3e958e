//! Laws of the texts of proofs, each the contract of a function that does nothing.

ghost use Rattle.proof_texts.specs.Laws.{WordsAreFound, StepsAreMade, ProofsAreReadAgain, ProofsAreReadAgainIn};

use worlds::World;

/// Each word is found by its text.
#[tactic(auto, using(crate::proofs::AgainLemmas::words_found))]
pub fn words_are_found()
    ensures { WordsAreFound }
{}

/// A step is made again of its word and its parts.
#[tactic(auto, using(crate::proofs::AgainLemmas::steps_made))]
pub fn steps_are_made()
    ensures { StepsAreMade }
{}

/// The text of a proof is read again as that proof, in a world as data where no word of the syntax of terms is a function.
#[tactic(auto, using(crate::proofs::AgainLemmas::proofs_again))]
pub fn proofs_are_read_again()
    ensures { ProofsAreReadAgain }
{}

/// The text of a proof is read again as that proof, in each world that a book makes.
#[tactic(auto, using(crate::proofs::SyntaxWords::proofs_again_in))]
pub fn proofs_are_read_again_in(world: &World)
    ensures { ProofsAreReadAgainIn world.now }
{
    world.words_are_no_functions();
}
