//! The workloads of documents: small maps from the names of fields to texts.

use linked_hash_map::LinkedHashMap;
use std::alloc::{AllocError, Global};

/// A document.
pub type Document = LinkedHashMap<String, String>;

/// The names of its fields.
const FIELDS: [&str; 5] = ["id", "name", "email", "city", "created_at"];

/// Inserts the fields of a document, with copies of some texts, one each. All documents are filled
/// here, so that each workload is compiled as without the others.
#[inline(never)]
fn fill(alloc: Global, document: &mut Document, texts: &[String]) -> Result<(), AllocError> {
    for (field, text) in FIELDS.iter().zip(texts) {
        document.insert((*field).to_string(alloc)?, text.clone()?)?;
    }
    Ok(())
}

/// Makes a document whose fields have copies of some texts.
fn document(alloc: Global, texts: &[String]) -> Result<Document, AllocError> {
    let mut document = LinkedHashMap::new(alloc);
    fill(alloc, &mut document, texts)?;
    Ok(document)
}

/// Makes such a document that has the capacity for its fields.
fn with_capacity(alloc: Global, texts: &[String]) -> Result<Document, AllocError> {
    let mut document = LinkedHashMap::with_capacity(alloc, FIELDS.len())?;
    fill(alloc, &mut document, texts)?;
    Ok(document)
}

/// Makes documents that have copies of all of some texts.
pub fn documents(alloc: Global, texts: &[String]) -> Result<Vec<Document>, AllocError> {
    let mut documents = Vec::new(alloc);
    for part in texts.chunks(FIELDS.len()) {
        documents.push(document(alloc, part)?)?;
    }
    Ok(documents)
}

/// Makes such documents that have the capacity for their fields.
pub fn all_with_capacity(alloc: Global, texts: &[String]) -> Result<Vec<Document>, AllocError> {
    let mut documents = Vec::new(alloc);
    for part in texts.chunks(FIELDS.len()) {
        documents.push(with_capacity(alloc, part)?)?;
    }
    Ok(documents)
}

/// Looks up the fields of a document, and adds the bytes of their texts to `sink`.
#[inline(always)]
fn read_one(document: &Document, sink: u64) -> u64 {
    let mut sink = sink;
    for field in FIELDS {
        if let Some(text) = document.get(field) {
            sink = sink.wrapping_add(text.len() as u64);
        }
    }
    sink
}

/// Looks up the fields of each document, and returns the bytes of their texts.
pub fn read(documents: &[Document]) -> u64 {
    let mut sink = 0;
    for document in documents {
        sink = read_one(document, sink);
    }
    sink
}

/// Makes documents that have copies of all of some texts, looks up the fields of each and drops it
/// before the next. Returns the bytes of their texts.
pub fn cycle(alloc: Global, texts: &[String]) -> Result<u64, AllocError> {
    let mut sink = 0;
    for part in texts.chunks(FIELDS.len()) {
        sink = read_one(&document(alloc, part)?, sink);
    }
    Ok(sink)
}
