//! What an audit service answers, and what its client checks by the root digest alone.
use crate::sharing::{Recipe, key, put, tell};
use anyhow::Result;
use mst_key::{Format, Key, Memory, Value};
use mst_proof::verify_in;
use mst_store::{Pass, Pinned, Shape};
use std::alloc::Global;

pub const SHAPE: Shape = Shape {
    rows: 100,
    passes: 2,
    format: Format::Two,
};

/// An answer for a key: its value, or that it has none, and the proof of this.
#[derive(Drop)]
struct Answer {
    value: Option<Value>,
    proof: Vec<u8>,
}

// The service: value and proof are of the version that it pins.
fn answer_for(alloc: Global, pinned: &mut Pinned<'_, Global>, key: &Key) -> Result<Answer, Memory> {
    let value = pinned.get(key);
    let proof = pinned.prove(alloc, key)?;
    Ok(Answer { value, proof })
}

// The client: it takes an answer exactly if the proof shows it of the map with its root digest.
fn judged(root: &[u8; 32], key: &Key, answer: &Answer) -> &'static str {
    match verify_in(Format::Two, root, key, &answer.proof) {
        Ok(shown) if shown == answer.value => "accepted",
        _ => "refused",
    }
}

// The client asks about a version, and judges the answer by the root digest that it has. Somebody
// may forge the answer on the way.
fn ask(
    rt: &HostRuntime,
    pinned: &mut Pinned<'_, Global>,
    root: &[u8; 32],
    what: &str,
    is_forged: bool,
) -> Result<()> {
    let apple = key("apple")?;
    let mut answer = answer_for(rt.alloc(), pinned, &apple)?;
    if is_forged {
        answer.value = Value::new(b"31").ok();
    }
    tell(rt, what, judged(root, &apple, &answer))
}

/// The recipe.
pub struct AuditService;

impl Recipe for AuditService {
    fn begin(_rt: &HostRuntime, writer: &mut Pass<'_, Global>) -> Result<()> {
        put(writer, "apple", "30")
    }

    // The writer goes on while the service has a version pinned.
    fn go_on(_rt: &HostRuntime, writer: &mut Pass<'_, Global>) -> Result<()> {
        put(writer, "apple", "35")
    }

    // The client gets an answer, then the same one forged, and one of a newer version. It still has
    // the root digest of the version before.
    fn look(
        rt: &HostRuntime,
        before: &mut Pinned<'_, Global>,
        now: &mut Pinned<'_, Global>,
    ) -> Result<()> {
        let root = before.root();
        ask(rt, before, &root, "the answer", false)?;
        ask(rt, before, &root, "a forged one", true)?;
        ask(rt, now, &root, "a newer one", false)
    }
}
