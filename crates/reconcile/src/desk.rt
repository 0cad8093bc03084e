// The program's state: the matrices kept under their numbers, the tables and the decoders chosen.
use crate::command::{Asked, Choice, Command, Kind, Tables, read_command};
use crate::decoding::decode;
use crate::error::LineError;
use crate::spelling::{refused, spell_bits, spell_run};
use check_rules::{TableRefusal, TableRule};
use codes::Matrix;
use frames::{Frame, read};
use refusals::Refusal;
use std::alloc::{AllocError, Global};
use std::collections::BTreeMap;

impl Tables {
    fn rule(&self) -> Result<TableRule<'_>, TableRefusal> {
        TableRule::admit(
            self.f2a.as_slice(),
            self.a2f.as_slice(),
            self.raw.as_slice(),
        )
    }
}

#[derive(Drop)]
pub struct Desk {
    matrices: BTreeMap<u32, Matrix>,
    tables: Option<Tables>,
    choices: Vec<Choice>,
}

impl Desk {
    pub fn new(heap: Global) -> Desk {
        Desk {
            matrices: BTreeMap::new(heap),
            tables: None,
            choices: Vec::new(heap),
        }
    }

    // What to print of a line.
    pub fn reply(&mut self, heap: Global, line: &str) -> Result<String, LineError> {
        let text = match read_command(heap, line)? {
            Command::Matrix {
                id,
                n,
                m,
                positions,
                ends,
            } => match Matrix::admit(id, n, m, positions, ends) {
                Ok(matrix) => self.keep_matrix(heap, matrix)?,
                Err(refusal) => refused(heap, "matrix", refusal.told())?,
            },
            Command::Syndrome { id, key, room } => spell_syndrome(
                heap,
                self.matrix(id)?,
                key.as_slice(),
                room,
            )?,
            Command::Frame { n, m, bytes } => match read(n, m, bytes.as_slice()) {
                Ok(frame) => spell_frame(heap, &frame)?,
                Err(refusal) => refused(heap, "frame", refusal.told())?,
            },
            Command::Tables(tables) => self.keep_tables(heap, tables)?,
            Command::Decoder(choices) => self.choose(heap, line, choices)?,
            Command::Decode(asked) => {
                let matrix = self.matrix(asked.matrix)?;
                let rule = self.tables.as_ref().and_then(|tables| tables.rule().ok());
                decode(heap, self.choices.as_slice(), rule, matrix, &asked)?
            }
        };
        Ok(text)
    }

    fn matrix(&self, id: u32) -> Result<&Matrix, LineError> {
        self.matrices.get(&id).ok_or(LineError::NotUnderstood)
    }

    fn keep_matrix(&mut self, heap: Global, matrix: Matrix) -> Result<String, AllocError> {
        let id = matrix.number();
        let text = format!(in heap;
            "matrix {id}: {} positions, {} checks, {} entries",
            matrix.width(),
            matrix.checks(),
            matrix.positions().len()
        )?;
        self.matrices.insert(id, matrix)?;
        Ok(text)
    }

    fn keep_tables(&mut self, heap: Global, tables: Tables) -> Result<String, AllocError> {
        if let Err(refusal) = tables.rule() {
            return refused(heap, "tables", refusal.told());
        }
        let text = format!(in heap; "tables {} {}", tables.f2a.len(), tables.a2f.len())?;
        self.tables = Some(tables);
        Ok(text)
    }

    fn choose(
        &mut self,
        heap: Global,
        line: &str,
        choices: Vec<Choice>,
    ) -> Result<String, LineError> {
        if self.tables.is_none() && choices.iter().any(|choice| choice.kind == Kind::Table) {
            return Err(LineError::NotUnderstood);
        }
        self.choices = choices;
        Ok(String::from_str(heap, line)?)
    }
}

// Of a longer buffer the call gets the front that it writes.
fn spell_syndrome(
    heap: Global,
    matrix: &Matrix,
    key: &[u8],
    room: usize,
) -> Result<String, AllocError> {
    let mut buffer = vec![in heap; 0u8; room.min(matrix.checks())]?;
    match matrix.syndrome(key, buffer.as_mut_slice()) {
        Ok(()) => format!(in heap; "syndrome {}", spell_bits(heap, buffer.as_slice())?),
        Err(refusal) => refused(heap, "syndrome", refusal.told()),
    }
}

fn spell_frame(heap: Global, frame: &Frame<'_>) -> Result<String, AllocError> {
    match frame {
        Frame::Syndrome { side, block, bits } => format!(in heap;
            "frame syndrome side {} block {block} round 0 bits {}",
            u8::from(*side),
            spell_run(heap, bits)?
        ),
        Frame::Disclosure {
            side,
            block,
            round,
            map,
            values,
        } => format!(in heap;
            "frame disclosure side {} block {block} round {round} map {} values {}",
            u8::from(*side),
            spell_run(heap, map)?,
            spell_run(heap, values)?
        ),
    }
}
