//! The workloads of documents that nest: maps from the names of fields to texts or further maps.

use linked_hash_map::LinkedHashMap;
use std::alloc::{AllocError, Global};

/// A document, or an object in one.
pub type Object = LinkedHashMap<String, Value>;

/// What a field has.
#[derive(Drop)]
pub enum Value {
    /// A text.
    Text(String),
    /// Further fields.
    Object(LinkedHashMap<String, Value>),
}

/// The names of the fields of a document that have texts, that of the one that has an object, and
/// the names of the fields of that.
const FIELDS: [&str; 3] = ["id", "name", "email"];

const OBJECT: &str = "address";

const FIELDS_OF_OBJECT: [&str; 3] = ["street", "city", "zip"];

/// How many texts a document has.
const TEXTS: usize = 6;

/// Makes an object whose fields have copies of some texts, one each.
fn object(alloc: Global, fields: [&str; 3], texts: &[String]) -> Result<Object, AllocError> {
    let mut object = LinkedHashMap::new(alloc);
    for (field, text) in fields.iter().zip(texts) {
        object.insert((*field).to_string(alloc)?, Value::Text(text.clone()?))?;
    }
    Ok(object)
}

/// Makes a document that has copies of some texts, those behind the third in an object.
fn document(alloc: Global, texts: &[String]) -> Result<Object, AllocError> {
    let mut document = object(alloc, FIELDS, texts)?;
    if let [_, _, _, rest @ ..] = texts {
        let inner = object(alloc, FIELDS_OF_OBJECT, rest)?;
        document.insert(OBJECT.to_string(alloc)?, Value::Object(inner))?;
    }
    Ok(document)
}

/// Makes documents that have copies of all of some texts, drops each before the next, and returns
/// how many fields they have, without those of objects.
pub fn build(alloc: Global, texts: &[String]) -> Result<u64, AllocError> {
    let mut count: u64 = 0;
    for part in texts.chunks(TEXTS) {
        count = count.wrapping_add(document(alloc, part)?.len() as u64);
    }
    Ok(count)
}

/// Makes documents that have copies of all of some texts.
pub fn documents(alloc: Global, texts: &[String]) -> Result<Vec<Object>, AllocError> {
    let mut documents = Vec::new(alloc);
    for part in texts.chunks(TEXTS) {
        documents.push(document(alloc, part)?)?;
    }
    Ok(documents)
}

/// Looks up fields of an object, and adds the bytes of their texts to `sink`.
fn read_fields(object: &Object, fields: [&str; 3], sink: u64) -> u64 {
    let mut sink = sink;
    for field in fields {
        if let Some(Value::Text(text)) = object.get(field) {
            sink = sink.wrapping_add(text.len() as u64);
        }
    }
    sink
}

/// Looks up each field of each document and of its object, and returns the bytes of the texts.
pub fn read(documents: &[Object]) -> u64 {
    let mut sink = 0;
    for document in documents {
        sink = read_fields(document, FIELDS, sink);
        if let Some(Value::Object(object)) = document.get(OBJECT) {
            sink = read_fields(object, FIELDS_OF_OBJECT, sink);
        }
    }
    sink
}
