//! Certificates written in form 1, and in form 2 or 3.
ghost use Rattle.std.specs.Prelude.{◌≡◌, ◌≤◌, ◌+◌, ◌++◌, All, OnOk, IfOk, IfErr, length};
ghost use Rattle.std.specs.List.{flat_map};
ghost use Rattle.cert_form.specs.Spelling.{node, listed, SpellsListed};
ghost use Rattle.cert_form.specs.Writing.{plain, plains, AreWritable, IsMeant, Refused};
ghost use Rattle.cert_form.specs.inner.Standing.{IsPlain};

use crate::fault::FormError;
use crate::limits::{MAX_BYTES, MAX_LITERALS, MAX_NODES};
use crate::node::Node;
use crate::put::{put_literals, put_long, put_short, put_tail, put_value, states_nothing, tag_of};
use std::alloc::{AllocError, Global};

fn put_node(out: &mut Vec<u8>, n: &Node) -> Result<(), AllocError>
    requires { length n.now.lits.items ≤ 512 }
    ensures { OnOk result (out.new.items ≡ out.old.items ++ node (plain n.now)) }
{
    out.push(tag_of(&n.kind))?;
    put_short(out, n.pc)?;
    put_short(out, n.lits.len() as u16)?;
    put_value(out, n.regs.a)?;
    put_value(out, n.regs.x)?;
    put_literals(out, &n.lits)?;
    put_tail(out, &n.kind)
}

// The nodes behind what is there already.
fn put_nodes(out: &mut Vec<u8>, nodes: &[Node]) -> Result<(), FormError>
    ensures written { OnOk result (out.new.items ≡ out.old.items ++ flat_map node (plains nodes.now)) }
    ensures plain { OnOk result (All IsPlain (plains nodes.now)) }
    ensures refused { IfErr result (λ e. Refused e (plains nodes.now)) }
{
    for n in nodes {
        if !states_nothing(&n.regs.scratch) {
            return Err(FormError::BadNode);
        }
        if n.lits.len() > MAX_LITERALS {
            return Err(FormError::BadCount);
        }
        put_node(out, n)?;
    }
    Ok(())
}

/// The nodes in form 1. They are refused only for a limit of the form, for memory, or if a scratch value is stated.
/// Form 1 has no field for such a value.
pub fn write(alloc: Global, nodes: &[Node]) -> Result<Vec<u8>, FormError>
    // What is written are the bytes of these nodes, which keep the limits.
    ensures spelled { IfOk result (λ bytes. bytes.items ≡ listed (plains nodes.now)) }
    ensures kept { OnOk result (AreWritable (plains nodes.now)) }
    // It is read as these nodes, given that their literals and values are such.
    ensures written { IfOk result (λ bytes. All IsMeant (plains nodes.now) → SpellsListed bytes.items (plains nodes.now)) }
    ensures refused { IfErr result (λ e. Refused e (plains nodes.now)) }
{
    if nodes.is_empty() || nodes.len() > MAX_NODES {
        return Err(FormError::BadCount);
    }
    let mut out = Vec::new(alloc);
    out.extend_from_slice(b"CCRT")?;
    put_long(&mut out, 1)?;
    put_long(&mut out, nodes.len() as u32)?;
    put_nodes(&mut out, nodes)?;
    if out.len() > MAX_BYTES {
        return Err(FormError::BadCount);
    }
    Ok(out)
}
