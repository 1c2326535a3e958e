//! The codes of refusals: their numbers and words stand here, and nowhere else.

ghost use Rattle.std.specs.Prelude.{◌≡◌};
ghost use Rattle.lisp_data.specs.RefusalCodes.{number, word};

/// Why a book or an event is refused (docs/REPORT.md).
#[derive(Clone, Copy, Debug, PartialEq, Eq)]
pub enum Code {
    /// A byte that can't stand there.
    BadByte,
    /// The book ends inside a list, or after a `'` without its form.
    UnclosedList,
    /// A `)` where no list is open, or where a `'` waits for its form.
    StrayClose,
    /// A point that can't stand there, or no single form after it.
    BadDot,
    /// A ratio, or a number with a point or an exponent.
    BadNumber,
    /// An integer of more than 128 bits.
    IntegerTooWide,
    /// One `(` or `'` more than may be open at once.
    TooDeep,
    /// More bytes or more forms than a book may have.
    BookTooLong,
    /// A symbol of more bytes than `MAX_SYMBOL`.
    SymbolTooLong,
    /// The book ends inside a string or a block comment, outside any list and with no `'` before it.
    UnclosedText,
    /// The form is no event, or one that isn't supported yet.
    NotAnEvent,
    /// A part of an event has another form. The detail is a key, or a word for the part.
    BadForm,
    /// A key that the event doesn't name. The detail is the key.
    KeyNotKnown,
    /// Another package or book. The detail is its text.
    BookNotKnown,
    /// A term past the limits of terms.
    TermTooLarge,
    /// A name that isn't free. The detail is the name.
    NameTaken,
    /// Nothing of that name. The detail is the name.
    UnknownName,
    /// A call with another number of arguments. The detail is the function's name.
    WrongArity,
    /// A variable outside the scope. The detail is the variable.
    UnboundVariable,
    /// A variable twice, or a reserved one. The detail is the variable.
    RepeatedFormal,
    /// A recursive call inside an argument of another. The detail is the function's name.
    NestedRecursion,
    /// A recursive function without a measure, where no argument serves. The detail is the function's name.
    NoMeasure,
    /// No specification of that name. The detail is the name.
    NotASpec,
    /// A known name of another kind. The detail is the name.
    NotAFunction,
    /// What depends on a function variable. The detail is the variable, or the condition and the node of its proof.
    HasFunctionVariables,
    /// No recorded instance. The detail is the function's name.
    NoInstance,
    /// Another shape than the event asks for. The detail is a word for the part.
    ShapeMismatch,
    /// A base with a variable in it.
    BaseNotGround,
    /// A step that doesn't follow. The detail is its number.
    ChainBroken,
    /// The reduction of a condition is stuck. The detail is the condition.
    NotProved,
    /// The reduction of a condition takes too many steps. The detail is the condition.
    StepLimit,
    /// A proof that is wrong. The detail is the condition, the node and its rule.
    ProofWrong,
    /// A ring comparison past the limit of norms. The detail is the condition and the node.
    RingTooWide,
    /// A ring comparison past the limit of monomials. The detail is the condition and the node.
    RingTooLarge,
    /// An evaluation past the limit of calls. The detail is the condition and the node, or none.
    EvalTooManyCalls,
    /// An evaluation past the width of integers. The detail is the condition and the node, or none.
    EvalTooWide,
    /// An evaluation past the limits of values. The detail is the condition and the node, or none.
    EvalTooLarge,
    /// The log lacks what an event owes. The detail is the condition.
    LogMissing,
    /// The log has another form.
    LogForm,
    /// The log has more than the events owe.
    LogLeftOver,
}

impl Code {
    /// The number of the refusal, from 1 to 40.
    pub fn number(self) -> u8
        ensures { result ≡ number self }
    {
        match self {
            Code::BadByte => 1,
            Code::UnclosedList => 2,
            Code::StrayClose => 3,
            Code::BadDot => 4,
            Code::BadNumber => 5,
            Code::IntegerTooWide => 6,
            Code::TooDeep => 7,
            Code::BookTooLong => 8,
            Code::SymbolTooLong => 9,
            Code::UnclosedText => 10,
            Code::NotAnEvent => 11,
            Code::BadForm => 12,
            Code::KeyNotKnown => 13,
            Code::BookNotKnown => 14,
            Code::TermTooLarge => 15,
            Code::NameTaken => 16,
            Code::UnknownName => 17,
            Code::WrongArity => 18,
            Code::UnboundVariable => 19,
            Code::RepeatedFormal => 20,
            Code::NestedRecursion => 21,
            Code::NoMeasure => 22,
            Code::NotASpec => 23,
            Code::NotAFunction => 24,
            Code::HasFunctionVariables => 25,
            Code::NoInstance => 26,
            Code::ShapeMismatch => 27,
            Code::BaseNotGround => 28,
            Code::ChainBroken => 29,
            Code::NotProved => 30,
            Code::StepLimit => 31,
            Code::ProofWrong => 32,
            Code::RingTooWide => 33,
            Code::RingTooLarge => 34,
            Code::EvalTooManyCalls => 35,
            Code::EvalTooWide => 36,
            Code::EvalTooLarge => 37,
            Code::LogMissing => 38,
            Code::LogForm => 39,
            Code::LogLeftOver => 40,
        }
    }

    /// The word of the refusal.
    pub fn word(self) -> &'static str
        ensures { result.now ≡ word self }
    {
        match self {
            Code::BadByte => "BadByte",
            Code::UnclosedList => "UnclosedList",
            Code::StrayClose => "StrayClose",
            Code::BadDot => "BadDot",
            Code::BadNumber => "BadNumber",
            Code::IntegerTooWide => "IntegerTooWide",
            Code::TooDeep => "TooDeep",
            Code::BookTooLong => "BookTooLong",
            Code::SymbolTooLong => "SymbolTooLong",
            Code::UnclosedText => "UnclosedText",
            Code::NotAnEvent => "NotAnEvent",
            Code::BadForm => "BadForm",
            Code::KeyNotKnown => "KeyNotKnown",
            Code::BookNotKnown => "BookNotKnown",
            Code::TermTooLarge => "TermTooLarge",
            Code::NameTaken => "NameTaken",
            Code::UnknownName => "UnknownName",
            Code::WrongArity => "WrongArity",
            Code::UnboundVariable => "UnboundVariable",
            Code::RepeatedFormal => "RepeatedFormal",
            Code::NestedRecursion => "NestedRecursion",
            Code::NoMeasure => "NoMeasure",
            Code::NotASpec => "NotASpec",
            Code::NotAFunction => "NotAFunction",
            Code::HasFunctionVariables => "HasFunctionVariables",
            Code::NoInstance => "NoInstance",
            Code::ShapeMismatch => "ShapeMismatch",
            Code::BaseNotGround => "BaseNotGround",
            Code::ChainBroken => "ChainBroken",
            Code::NotProved => "NotProved",
            Code::StepLimit => "StepLimit",
            Code::ProofWrong => "ProofWrong",
            Code::RingTooWide => "RingTooWide",
            Code::RingTooLarge => "RingTooLarge",
            Code::EvalTooManyCalls => "EvalTooManyCalls",
            Code::EvalTooWide => "EvalTooWide",
            Code::EvalTooLarge => "EvalTooLarge",
            Code::LogMissing => "LogMissing",
            Code::LogForm => "LogForm",
            Code::LogLeftOver => "LogLeftOver",
        }
    }
}
