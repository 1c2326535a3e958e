//! Laws of events, each the contract of a function that does nothing.

ghost use Rattle.events.specs.Laws.{AcceptedIsSound, ProofForEach, PrintedIsTrue, ValueTriplesPrint};

/// A lawful event that is accepted in a sound world makes a sound world.
pub fn accepted_is_sound()
    ensures { AcceptedIsSound }
{
    plans::entries_keep_sound();
    plans::proved_conditions_hold();
    reduction_proofs::hints_fit();
    reduction_proofs::reductions_prove();
}

/// An accepted event has one proof for each of its conditions and claims.
pub fn proof_for_each()
    ensures { ProofForEach }
{}

/// A value that is printed is the one that the form of a value-triple has in the model.
pub fn printed_is_true()
    ensures { PrintedIsTrue }
{
    evaluator::counted_values_are_values();
}

/// A value-triple prints a value, or is refused.
pub fn value_triples_print()
    ensures { ValueTriplesPrint }
{}
