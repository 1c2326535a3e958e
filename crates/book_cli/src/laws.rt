//! Laws of reports, each the contract of a function that does nothing.

ghost use Rattle.book_cli.specs.Values.{PrintedValuesAreTrue};

/// Each value that is printed is the model's.
pub(crate) fn printed_values_are_true()
    ensures { PrintedValuesAreTrue }
{
    events::printed_is_true();
    events::value_triples_print();
}
