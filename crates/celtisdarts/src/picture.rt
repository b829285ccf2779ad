//! Proofs as a picture for the command `dot`: for each answer with a proof a box with its line above, a node for each row, with the goal and
//! by what it holds, and an edge to each of its premises.

use crate::lines::split_line;
use crate::printed::written;
use coherence::RunFault;
use explain_texts::explain_diagnostics::{Diagnostic, ProofRow};
use std::alloc::{AllocError, Global};
use std::io;
use std::io::Write;

/// Writes a part of a label: each byte stands for itself.
fn write_label<W: Write>(writer: &mut W, text: &[u8]) -> io::Result<()> {
    for byte in text {
        if *byte == b'"' || *byte == b'\\' {
            writer.write_all(b"\\")?;
        }
        writer.write_all(&[*byte])?;
    }
    Ok(())
}

/// Writes the node of a row.
fn write_node<W: Write>(writer: &mut W, name: &str, row: &ProofRow) -> io::Result<()> {
    write!(writer, "    {name} [label=\"")?;
    write_label(writer, row.goal.as_bytes())?;
    writer.write_all(b"\\n")?;
    write_label(writer, row.reason.as_bytes())?;
    writer.write_all(b"\"];\n")
}

/// A row that is to be drawn, by its index and the name of its node: that of the row above it, and its place among the premises there.
type Node = (usize, String);

/// The rows from an index on that are so deep, up to one that is less deep: the premises of the row before.
fn premises(
    alloc: Global,
    rows: &[ProofRow],
    from: usize,
    depth: usize,
    above: &str,
) -> Result<Vec<Node>, AllocError> {
    let mut found = Vec::new(alloc);
    for (index, row) in rows.iter().enumerate().skip(from) {
        if row.depth < depth {
            break;
        }
        if row.depth == depth {
            let place = found.len();
            found.push((index, format!(in alloc; "{above}_{place}")?))?;
        }
    }
    Ok(found)
}

/// Draws the rows of a proof: after each one its premises, the last of them first.
fn write_rows<W: Write>(
    alloc: Global,
    writer: &mut W,
    number: usize,
    rows: &[ProofRow],
) -> Result<(), RunFault> {
    let name = format!(in alloc; "row_{number}")?;
    let mut left = premises(alloc, rows, 0, 0, name.as_str())?;
    for _ in 0..rows.len() {
        let Some((index, name)) = left.pop() else {
            break;
        };
        let Some(row) = rows.get(index) else {
            break;
        };
        written(write_node(writer, name.as_str(), row))?;
        let from = index.saturating_add(1);
        let below = premises(
            alloc,
            rows,
            from,
            row.depth.saturating_add(1),
            name.as_str(),
        )?;
        for premise in below {
            let to = premise.1.as_str();
            written(writeln!(writer, "    {name} -> {to};"))?;
            left.push(premise).map_err(AllocError::from)?;
        }
    }
    Ok(())
}

/// Draws the proof of the answer at an index.
fn write_proof<W: Write>(
    alloc: Global,
    writer: &mut W,
    number: usize,
    line: &[u8],
    rows: &[ProofRow],
) -> Result<(), RunFault> {
    written(write!(writer, "  subgraph cluster_{number} {{\n    label=\""))?;
    written(write_label(writer, line))?;
    written(writer.write_all(b"\";\n"))?;
    write_rows(alloc, writer, number, rows)?;
    written(writer.write_all(b"  }\n"))
}

/// Draws the proofs of the answers that have one.
pub(crate) fn write_picture<W: Write>(
    alloc: Global,
    writer: &mut W,
    lines: &[u8],
    found: &[Option<Diagnostic>],
) -> Result<(), RunFault> {
    written(writer.write_all(b"digraph proofs {\n  node [shape=box, fontname=\"monospace\"];\n"))?;
    let mut rest = lines;
    for (number, told) in found.iter().enumerate() {
        let Some((line, behind)) = split_line(rest) else {
            break;
        };
        rest = behind;
        if let Some(told) = told {
            if !told.proof.is_empty() {
                write_proof(alloc, writer, number, line, &told.proof)?;
            }
        }
    }
    written(writer.write_all(b"}\n"))
}
