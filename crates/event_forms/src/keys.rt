//! Keys with their values.

ghost use Rattle.std.specs.Prelude.{◌≡◌, Some, codes, map, option_map, IfOk, IfSome};
ghost use Rattle.std.specs.Option.{option_copied};
ghost use Rattle.lisp_data.specs.FormView.{form_of, IsProper, AllProper};
ghost use Rattle.terms.specs.Worlds.{is_in};
ghost use Rattle.proof_texts.specs.Items as lists;
ghost use Rattle.event_forms.specs.Clauses.{further};
ghost use Rattle.event_forms.specs.Keys as spec;
ghost use Rattle.event_forms.specs.Refused.{Says};

use crate::clauses::{ClauseKind, add_name, name_conditions};
use crate::constants::constant;
use crate::errors::EventError;
use crate::places::all_symbols;
use lisp_data::{Form, Memory, Symbol, Symbols};
use proof_texts::{contains, is_among, is_word, items, symbol};
use std::alloc::Global;

/// The keys that were seen, and the conditions that their values name.
#[derive(Drop)]
pub(crate) struct SeenKeys {
    pub(crate) keys: Symbols,
    pub(crate) named: Symbols,
}

impl SeenKeys {
    /// Before the first key.
    pub(crate) fn none(alloc: Global) -> SeenKeys
        ensures { result ≡ spec.no_keys }
    {
        SeenKeys {
            keys: Symbols::new(alloc),
            named: Symbols::new(alloc),
        }
    }
}

/// The one condition of a theorem, behind those that were named before, where it wasn't.
#[tactic(auto, unfolding(lisp_data::specs::SymbolText::is_symbol_text, lisp_data::specs::Atoms::leaf, lisp_data::specs::Atoms::in_atom, lisp_data::specs::Atoms::is_delimiter, lisp_data::specs::Atoms::is_sign))]
fn add_goal(alloc: Global, named: Symbols) -> Result<Option<Symbols>, Memory>
    ensures { IfOk result (λ names. names ≡ further named (Some (codes ":GOAL"))) }
{
    let goal = Symbol::named(alloc, ":GOAL")?;
    add_name(named, &goal)
}

fn named_in_clauses(named: Symbols, key: &str, value: &Form) -> Result<Option<Symbols>, Memory>
    requires { IsProper value.now }
    ensures { IfOk result (λ names. names ≡ spec.in_clauses named key.now (form_of value.now)) }
{
    if key == ":PROOF" {
        name_conditions(ClauseKind::Proof, named, value)
    } else if key == ":HOW" {
        name_conditions(ClauseKind::Hints, named, value)
    } else {
        Ok(Some(named))
    }
}

/// The same conditions, where the value is a list of names.
fn if_names(named: Symbols, value: &Form) -> Option<Symbols>
    requires { IsProper value.now }
    ensures { result ≡ spec.if_names named (lists.items_of (form_of value.now)) }
{
    match items(value) {
        Some(forms) => {
            if all_symbols(forms) {
                Some(named)
            } else {
                None
            }
        }
        None => None,
    }
}

fn named_in_theorem(
    alloc: Global,
    named: Symbols,
    key: &str,
    value: &Form,
) -> Result<Option<Symbols>, Memory>
    requires { IsProper value.now }
    ensures { IfOk result (λ names. names ≡ spec.in_theorem named key.now (form_of value.now)) }
{
    if key == ":PROOF" {
        add_goal(alloc, named)
    } else if key == ":HOW" {
        match items(value) {
            Some(_) => add_goal(alloc, named),
            None => Ok(None),
        }
    } else if key == ":ASSUMING" {
        Ok(if_names(named, value))
    } else {
        Ok(Some(named))
    }
}

/// The keys whose values are names.
const NAME_KEYS: [&str; 4] = [
    ":NEW-NAME",
    ":THM-NAME",
    ":NEW-TO-OLD-NAME",
    ":OLD-TO-NEW-NAME",
];

#[tactic(auto, unfolding(crate::specs::Keys::name_keys))]
fn is_name_key(key: &str) -> bool
    ensures { result ≡ is_in spec.name_keys key.now }
{
    is_among(&NAME_KEYS, key.as_bytes())
}

fn named_in_transformation(
    alloc: Global,
    named: Symbols,
    key: &str,
    value: &Form,
) -> Result<Option<Symbols>, Memory>
    requires { IsProper value.now }
    ensures { IfOk result (λ names. names ≡ spec.in_transformation named key.now (form_of value.now)) }
{
    if is_name_key(key) {
        if symbol(value).is_some() {
            Ok(Some(named))
        } else {
            Ok(None)
        }
    } else if key == ":UNDEFINED" {
        match constant(alloc, value)? {
            Some(_) => Ok(Some(named)),
            None => Ok(None),
        }
    } else {
        named_in_clauses(named, key, value)
    }
}

/// Where keys stand: in the declarations of a function, in a theorem, an isomorphism, a transformation or an instance, or
/// behind the name of a book.
#[derive(Clone, Copy, Debug, PartialEq, Eq)]
pub enum Keyed {
    Function,
    Theorem,
    Isomorphism,
    Restriction,
    Isodata,
    FunctionInstance,
    TheoremInstance,
    Book,
}

impl Keyed {
    #[tactic(auto, unfolding(crate::specs::Keys::known_keys))]
    fn knows(self, key: &str) -> bool
        ensures { result ≡ is_in (spec.known_keys self) key.now }
    {
        let known = match self {
            Keyed::Function => {
                [
                    ":GUARD",
                    ":VERIFY-GUARDS",
                    ":GUARD-HINTS",
                    ":MEASURE",
                    ":HOW",
                    ":PROOF",
                ]
                .as_slice()
            }
            Keyed::Theorem => [":RULE-CLASSES", ":ASSUMING", ":HOW", ":PROOF"].as_slice(),
            Keyed::Isomorphism => [":HOW", ":PROOF"].as_slice(),
            Keyed::Restriction => {
                [":NEW-NAME", ":THM-NAME", ":UNDEFINED", ":HOW", ":PROOF"].as_slice()
            }
            Keyed::Isodata => {
                [
                    ":NEW-NAME",
                    ":NEW-TO-OLD-NAME",
                    ":OLD-TO-NEW-NAME",
                    ":HOW",
                    ":PROOF",
                ]
                .as_slice()
            }
            Keyed::FunctionInstance => [":VERIFY-GUARDS"].as_slice(),
            Keyed::TheoremInstance => [":RULE-CLASSES"].as_slice(),
            Keyed::Book => [":DIR"].as_slice(),
        };
        is_among(known, key.as_bytes())
    }

    /// The part that is wrong where no keyword stands in a key's place.
    fn part(self) -> &'static str
        ensures { result.now ≡ spec.part_word self }
    {
        match self {
            Keyed::Function => "declare",
            Keyed::Theorem
            | Keyed::Isomorphism
            | Keyed::Restriction
            | Keyed::Isodata
            | Keyed::FunctionInstance
            | Keyed::TheoremInstance
            | Keyed::Book => "arguments",
        }
    }

    /// The conditions that a key's value names, behind those that were named before, where the value has its shape and names none again.
    fn named(
        self,
        alloc: Global,
        named: Symbols,
        key: &str,
        value: &Form,
    ) -> Result<Option<Symbols>, Memory>
        requires { IsProper value.now }
        ensures { IfOk result (λ names. names ≡ spec.named_by self named key.now (form_of value.now)) }
    {
        match self {
            Keyed::Function | Keyed::Isomorphism => named_in_clauses(named, key, value),
            Keyed::Theorem => named_in_theorem(alloc, named, key, value),
            Keyed::Restriction | Keyed::Isodata => {
                named_in_transformation(alloc, named, key, value)
            }
            Keyed::FunctionInstance | Keyed::TheoremInstance => Ok(Some(named)),
            Keyed::Book => {
                if is_word(value, ":SYSTEM") {
                    Ok(Some(named))
                } else {
                    Ok(None)
                }
            }
        }
    }
}

fn is_keyword(name: &str) -> bool
    ensures { result ≡ spec.is_keyword name.now }
{
    match name.as_bytes() {
        [first, ..] => b':' == *first,
        [] => false,
    }
}

/// A further key: a keyword, known, and not given yet.
fn further_key<'a>(
    alloc: Global,
    kind: Keyed,
    seen: &Symbols,
    form: &'a Form,
) -> Result<&'a Symbol, EventError>
    requires { IsProper form.now }
    ensures { Says (λ key. key.now) (spec.key_of kind seen.now (lists.symbol_of (form_of form.now))) result }
{
    let Some(key) = symbol(form) else {
        return Err(EventError::bad_part(alloc, kind.part()));
    };
    if !is_keyword(key.text()) {
        Err(EventError::bad_part(alloc, kind.part()))
    } else if !kind.knows(key.text()) {
        Err(EventError::unknown_key(key))
    } else if contains(seen, key) {
        Err(EventError::bad_key(key))
    } else {
        Ok(key)
    }
}

/// The keys that were seen and a further one.
fn with_key(
    alloc: Global,
    kind: Keyed,
    seen: SeenKeys,
    key: &Form,
    value: &Form,
) -> Result<SeenKeys, EventError>
    requires key { IsProper key.now }
    requires value { IsProper value.now }
    ensures { Says (λ keys. keys) (spec.with_key kind seen (form_of key.now) (form_of value.now)) result }
{
    let key = further_key(alloc, kind, &seen.keys, key)?;
    let SeenKeys { mut keys, named } = seen;
    let Some(named) = kind.named(alloc, named, key.text(), value)? else {
        return Err(EventError::bad_key(key));
    };
    keys.push(key.share()?)?;
    Ok(SeenKeys { keys, named })
}

/// The keys that were seen and those of the parts, each with a value. It calls itself once for each key that is known, so only a few times.
#[tactic(auto, using(crate::proofs::KeyLemmas::key_steps))]
pub(crate) fn read_keys(
    alloc: Global,
    kind: Keyed,
    seen: SeenKeys,
    parts: &[Form],
) -> Result<SeenKeys, EventError>
    requires { AllProper parts.now }
    ensures { Says (λ keys. keys) (spec.keys kind seen (map form_of parts.now)) result }
{
    match parts {
        [] => Ok(seen),
        [key] => {
            let key = further_key(alloc, kind, &seen.keys, key)?;
            Err(EventError::bad_key(key))
        }
        [key, value, rest @ ..] => {
            let seen = with_key(alloc, kind, seen, key, value)?;
            read_keys(alloc, kind, seen, rest)
        }
    }
}

/// The value of a key, where keys and values stand in turn.
pub(crate) fn value_of<'a>(key: &str, parts: &'a [Form]) -> Option<&'a Form>
    requires { AllProper parts.now }
    ensures value { option_map form_of (option_copied result) ≡ spec.value_of key.now (map form_of parts.now) }
    ensures proper { IfSome result (λ form. IsProper form.now) }
{
    let mut rest = parts;
    while let [name, value, behind @ ..] = rest {
        if is_word(name, key) {
            return Some(value);
        }
        rest = behind;
    }
    None
}
