// Asking the decoder that a script chose: one decoder, or a pile of two or three.
ghost use Rattle.std.specs.Prelude.{◌≡◌, IfErr, IfOk, IfSome, MatchResult};
ghost use Rattle.std.specs.String.{string_bytes};
ghost use Rattle.codes.specs.Of.{code_of};
ghost use Rattle.reconcile.specs.Asking.{Suffices, answer_text, line_question};
ghost use Rattle.reconcile.specs.Chosen.{named, all_named, chosen_rule, chosen_room, chosen_meaning, chosen_formed};

use crate::command::{Asked, Choice, Kind};
use crate::error::LineError;
use crate::spelling::{refused, spell_bits, spell_numbers};
use check_rules::{OffsetRule, TableRule};
use codes::Matrix;
use decoders::{Decoder, DecoderRefusal, Inquiry, Pile};
use flipping::Flipping;
use propagation::Propagation;
use refusals::Refusal;
use std::alloc::{AllocError, Global};

// What is asked before any decoder is chosen.
const UNCHOSEN: Choice = Choice {
    kind: Kind::Offset,
    limit: 64,
};

// A decoder of one of the kinds that a script names.
#[derive(Drop)]
pub enum Chosen<'a> {
    Offset(Propagation<OffsetRule>),
    Table(Propagation<TableRule<'a>>),
    Flipping(Flipping),
}

impl<'a> Chosen<'a> {
    // A table decoder is not understood while no tables are kept.
    fn new(choice: Choice, tables: Option<TableRule<'a>>) -> Result<Chosen<'a>, LineError>
        ensures { MatchResult result
            (λ d. named choice tables.entry ≡ Some (chosen_meaning d))
            (λ e. (e ≡ LineError.NotUnderstood) × (named choice tables.entry ≡ None)) }
    {
        let limit = u8::try_from(choice.limit).unwrap_or(u8::MAX);
        match choice.kind {
            Kind::Offset => Ok(Chosen::Offset(Propagation {
                rule: OffsetRule,
                limit,
            })),
            Kind::Table => {
                let rule = tables.ok_or(LineError::NotUnderstood)?;
                Ok(Chosen::Table(Propagation { rule, limit }))
            }
            Kind::Flipping => Ok(Chosen::Flipping(Flipping::new(u16::try_from(
                choice.limit,
            ).unwrap_or(u16::MAX)))),
        }
    }
}

impl Decoder for Chosen<'_> {
    ghost rule = { chosen_rule };

    ghost room = { chosen_room };

    ghost formed = { chosen_formed };

    fn need(&self, matrix: &Matrix) -> usize {
        match self {
            Chosen::Offset(decoder) => decoder.need(matrix),
            Chosen::Table(decoder) => decoder.need(matrix),
            Chosen::Flipping(decoder) => decoder.need(matrix),
        }
    }

    fn decode(
        &mut self,
        inquiry: &Inquiry<'_>,
        pattern: &mut [u8],
        confidence: &mut [u32],
        work: &mut [i32],
    ) -> Result<(), DecoderRefusal> {
        match self {
            Chosen::Offset(decoder) => decoder.decode(inquiry, pattern, confidence, work),
            Chosen::Table(decoder) => decoder.decode(inquiry, pattern, confidence, work),
            Chosen::Flipping(decoder) => decoder.decode(inquiry, pattern, confidence, work),
        }
    }
}

// What the decoder answers, as two lines, or its refusal. Of longer buffers it gets the fronts that it writes.
fn ask<D: Decoder + Drop>(
    heap: Global,
    mut decoder: D,
    matrix: &Matrix,
    asked: &Asked,
) -> Result<String, AllocError>
    ensures { IfOk result (λ text. Suffices (D.room decoder) (code_of matrix.now) asked.now
        → string_bytes text ≡ answer_text (D.rule decoder (line_question (code_of matrix.now) asked.now))) }
{
    let n = matrix.width();
    let inquiry = Inquiry {
        matrix,
        difference: asked.difference.as_slice(),
        states: asked.states.as_slice(),
        q: u8::try_from(asked.q).unwrap_or(u8::MAX),
    };
    let mut pattern = vec![in heap; 0u8; asked.pattern.min(n)]?;
    let mut confidence = vec![in heap; 0u32; asked.confidence.min(n)]?;
    let mut work = vec![in heap; 0i32; asked.work.min(decoder.need(matrix))]?;
    let answer = decoder.decode(
        &inquiry,
        pattern.as_mut_slice(),
        confidence.as_mut_slice(),
        work.as_mut_slice(),
    );
    if let Err(refusal) = answer {
        return refused(heap, "decode", refusal.told());
    }
    let bits = spell_bits(heap, pattern.as_slice())?;
    let numbers = spell_numbers(heap, confidence.as_slice())?;
    Ok(format!(in heap; "pattern {bits}\nconfidence{numbers}")?)
}

// Asks the decoder that the choices make, the first asked first.
pub fn decode(
    heap: Global,
    choices: &[Choice],
    tables: Option<TableRule<'_>>,
    matrix: &Matrix,
    asked: &Asked,
) -> Result<String, LineError>
    ensures answered { IfOk result (λ text. IfSome (all_named choices.now tables.entry) (λ m.
        Suffices m.room (code_of matrix.now) asked.now
        → string_bytes text ≡ answer_text (m.rule (line_question (code_of matrix.now) asked.now)))) }
    ensures named { IfErr result (λ e. e ≡ LineError.NotUnderstood → all_named choices.now tables.entry ≡ None) }
{
    let chosen = |choice: &Choice| Chosen::new(*choice, tables);
    let text = match choices {
        [] => ask(heap, chosen(&UNCHOSEN)?, matrix, asked)?,
        [only] => ask(heap, chosen(only)?, matrix, asked)?,
        [first, second] => {
            let pile = Pile {
                first: chosen(first)?,
                second: chosen(second)?,
            };
            ask(heap, pile, matrix, asked)?
        }
        // A line names three at most.
        [first, second, third, ..] => {
            let first = Pile {
                first: chosen(first)?,
                second: chosen(second)?,
            };
            let second = chosen(third)?;
            ask(heap, Pile { first, second }, matrix, asked)?
        }
    };
    Ok(text)
}
