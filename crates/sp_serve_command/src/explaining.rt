//! What `--explain` adds below a refusal of `serve` or `call`.

use sp_arguments::argument_of;
use sp_main::{Folder, StartWords, explain_folder};
use sp_serve_words::{Aim, CallRequest, Invocation, SpaceRequest, read_words};
use space_ids::Value;
use std::alloc::{AllocError, Global};
use std::io::Write;

/// Writes what the refusal of words means that `serve` or `call` refused. It reads the folder once more, and writes
/// nothing if it finds nothing wrong, or if memory runs out.
pub fn explain_space<F: Folder, E: Write>(
    alloc: Global,
    words: &[String],
    folder: &F,
    err: &mut E,
) {
    if let Ok(text) = explanation_of(alloc, words, folder) {
        let _ = err.write_all(text.as_bytes());
    }
}

/// Writes what to look at where a call of these words threw `java/rmi/ConnectException`, whose causes the caller's space
/// cannot tell apart.
pub fn explain_ended<E: Write>(alloc: Global, words: &[String], err: &mut E) {
    if let Ok(Invocation::Run(request)) = read_words(alloc, words)
        && let Aim::Call(call) = &request.aim
    {
        let _ = writeln!(
            err,
            "  If it threw java/rmi/ConnectException: nobody listens at {}, or the space there has another id or other class files.",
            call.peer.address
        );
    }
}

fn explanation_of<F: Folder>(
    alloc: Global,
    words: &[String],
    folder: &F,
) -> Result<String, AllocError> {
    match read_words(alloc, words)? {
        Invocation::Run(request) => explain_request(alloc, &request, folder),
        Invocation::Tell(_) | Invocation::Refuse(_) => Ok(String::new(alloc)),
    }
}

fn explain_request<F: Folder>(
    alloc: Global,
    request: &SpaceRequest<'_>,
    folder: &F,
) -> Result<String, AllocError> {
    match &request.aim {
        Aim::Serve(_) => explain_folder(alloc, folder, request.folder, None),
        Aim::Call(call) => {
            let arguments = values_of(alloc, call)?;
            let start = StartWords {
                class: call.class,
                method: call.method,
                arguments: arguments.as_slice(),
            };
            explain_folder(alloc, folder, request.folder, Some(start))
        }
    }
}

// The values that the method is given. The first is the object that is looked up, for which null stands here.
fn values_of(alloc: Global, call: &CallRequest<'_>) -> Result<Vec<Value>, AllocError> {
    let mut values = vec![in alloc; Value::Null]?;
    for word in &call.arguments {
        if let Some(value) = argument_of(alloc, word)? {
            values.push(value)?;
        }
    }
    Ok(values)
}
