//! Testing whether the tables of a database are the archive's.

ghost use Rattle.std.specs.Prelude.{◌≡◌, false, [], Some, slice_get, IsTrue};
ghost use Rattle.sqlite.specs.Kind.TheVariants.{Integer, Text};
ghost use Rattle.iss_tables.specs.Tables.{strict, head_columns, post_columns, head_table, post_table, archive_schema, no_schema};
ghost use Rattle.iss_tables.specs.Shapes.{IsStrictAs, BeginAsHead, BeginAsPost, EndAsPost, AsksNothing, IsPlainAs};

use sqlite::types::{Bytes, Value};
use sqlite_schema::code::Terms;
use sqlite_schema::schema::{Column, Kind, Schema, Stamps, Table};
use sqlite_value::keys::Collation;

fn is_named(name: &Bytes, wanted: &str) -> bool
    ensures yes { IsTrue result → name.now ≡ wanted.now }
    ensures no { name.now ≡ wanted.now → IsTrue result }
{
    name.as_slice() == wanted.as_bytes()
}

/// Whether it is a strict column of this name, with no default.
fn is_strict(column: &Column, name: &str) -> bool
    ensures yes { IsTrue result → IsStrictAs name.now column.now }
    ensures no { IsStrictAs name.now column.now → IsTrue result }
{
    if !is_named(&column.name, name) {
        return false;
    }
    if !column.is_strict {
        return false;
    }
    if !matches!(column.default, Value::Null) {
        return false;
    }
    matches!(column.collation, Collation::Binary)
}

/// Whether it is a strict column of numbers.
#[tactic(auto, using(crate::proofs::ShapeLemmas::column_is))]
fn is_number(column: &Column, name: &str, not_null: bool) -> bool
    ensures yes { IsTrue result → column.now ≡ strict name.now Integer not_null }
    ensures no { column.now ≡ strict name.now Integer not_null → IsTrue result }
{
    if !is_strict(column, name) {
        return false;
    }
    if column.not_null != not_null {
        return false;
    }
    matches!(column.kind, Kind::Integer)
}

/// Whether it is a strict column of texts that may be NULL.
#[tactic(auto, using(crate::proofs::ShapeLemmas::column_is))]
fn is_text(column: &Column, name: &str) -> bool
    ensures yes { IsTrue result → column.now ≡ strict name.now Text false }
    ensures no { column.now ≡ strict name.now Text false → IsTrue result }
{
    if !is_strict(column, name) {
        return false;
    }
    if column.not_null {
        return false;
    }
    matches!(column.kind, Kind::Text)
}

/// Whether a strict column of numbers stands at this place.
fn has_number(columns: &[Column], at: usize, name: &str, not_null: bool) -> bool
    ensures yes { IsTrue result → slice_get columns.now at ≡ Some (strict name.now Integer not_null) }
    ensures no { slice_get columns.now at ≡ Some (strict name.now Integer not_null) → IsTrue result }
{
    match columns.get(at) {
        Some(column) => is_number(column, name, not_null),
        None => false,
    }
}

/// Whether a strict column of texts stands at this place.
fn has_text(columns: &[Column], at: usize, name: &str) -> bool
    ensures yes { IsTrue result → slice_get columns.now at ≡ Some (strict name.now Text false) }
    ensures no { slice_get columns.now at ≡ Some (strict name.now Text false) → IsTrue result }
{
    match columns.get(at) {
        Some(column) => is_text(column, name),
        None => false,
    }
}

/// Whether the columns of the head come first.
fn begin_as_head(columns: &[Column]) -> bool
    ensures yes { IsTrue result → BeginAsHead columns.now }
    ensures no { BeginAsHead columns.now → IsTrue result }
{
    if !has_number(columns, 0, "id", false) {
        return false;
    }
    if !has_number(columns, 1, "instance", true) {
        return false;
    }
    if !has_number(columns, 2, "records", true) {
        return false;
    }
    has_number(columns, 3, "posts", true)
}

#[tactic(auto, using(crate::proofs::ShapeLemmas::head_columns_are))]
fn are_head_columns(columns: &[Column]) -> bool
    ensures yes { IsTrue result → columns.now ≡ head_columns }
    ensures no { columns.now ≡ head_columns → IsTrue result }
{
    if columns.len() != 4 {
        return false;
    }
    begin_as_head(columns)
}

/// Whether the first five columns of a posting come first.
fn begin_as_post(columns: &[Column]) -> bool
    ensures yes { IsTrue result → BeginAsPost columns.now }
    ensures no { BeginAsPost columns.now → IsTrue result }
{
    if !has_number(columns, 0, "seq", false) {
        return false;
    }
    if !has_number(columns, 1, "record", true) {
        return false;
    }
    if !has_number(columns, 2, "at", true) {
        return false;
    }
    if !has_number(columns, 3, "from_kind", true) {
        return false;
    }
    has_text(columns, 4, "from_user")
}

/// Whether the other five columns of a posting come after five.
fn end_as_post(columns: &[Column]) -> bool
    ensures yes { IsTrue result → EndAsPost columns.now }
    ensures no { EndAsPost columns.now → IsTrue result }
{
    if !has_number(columns, 5, "to_kind", true) {
        return false;
    }
    if !has_text(columns, 6, "to_user") {
        return false;
    }
    if !has_number(columns, 7, "currency", true) {
        return false;
    }
    if !has_number(columns, 8, "amount", true) {
        return false;
    }
    has_text(columns, 9, "txn")
}

#[tactic(auto, using(crate::proofs::ShapeLemmas::post_columns_are))]
fn are_post_columns(columns: &[Column]) -> bool
    ensures yes { IsTrue result → columns.now ≡ post_columns }
    ensures no { columns.now ≡ post_columns → IsTrue result }
{
    if columns.len() != 10 {
        return false;
    }
    if !begin_as_post(columns) {
        return false;
    }
    end_as_post(columns)
}

fn has_no_terms(terms: &Terms) -> bool
    ensures yes { IsTrue result → terms.now ≡ [] }
    ensures no { terms.now ≡ [] → IsTrue result }
{
    terms.roots.is_empty()
}

fn has_no_stamps(stamps: &Stamps) -> bool
    ensures yes { IsTrue result → stamps.now ≡ record { places = []; terms = []; formats = [] } }
    ensures no { stamps.now ≡ record { places = []; terms = []; formats = [] } → IsTrue result }
{
    if !stamps.places.is_empty() {
        return false;
    }
    if !has_no_terms(&stamps.terms) {
        return false;
    }
    stamps.formats.is_empty()
}

/// Whether it is a table of this name and tree that its first column keys, and asks nothing else of a row.
fn is_plain(table: &Table, name: &str, tree: u32) -> bool
    ensures yes { IsTrue result → IsPlainAs name.now tree table.now }
    ensures no { IsPlainAs name.now tree table.now → IsTrue result }
{
    if !is_named(&table.name, name) {
        return false;
    }
    if table.tree != tree {
        return false;
    }
    if !matches!(table.key, Some(0)) {
        return false;
    }
    if !matches!(table.primary.as_slice(), [0]) {
        return false;
    }
    if !table.uniques.is_empty() || !table.orders.is_empty() {
        return false;
    }
    asks_nothing(table)
}

fn asks_nothing(table: &Table) -> bool
    ensures yes { IsTrue result → AsksNothing table.now }
    ensures no { AsksNothing table.now → IsTrue result }
{
    if !has_no_terms(&table.checks) {
        return false;
    }
    if !table.references.is_empty() || !table.computed.is_empty() {
        return false;
    }
    if !has_no_stamps(&table.stamps) {
        return false;
    }
    !table.is_counted
}

#[tactic(auto, using(crate::proofs::ShapeLemmas::table_is))]
fn is_head(table: &Table) -> bool
    ensures yes { IsTrue result → table.now ≡ head_table }
    ensures no { table.now ≡ head_table → IsTrue result }
{
    if !is_plain(table, "head", 0) {
        return false;
    }
    are_head_columns(table.columns.as_slice())
}

#[tactic(auto, using(crate::proofs::ShapeLemmas::table_is))]
fn is_post(table: &Table) -> bool
    ensures yes { IsTrue result → table.now ≡ post_table }
    ensures no { table.now ≡ post_table → IsTrue result }
{
    if !is_plain(table, "post", 1) {
        return false;
    }
    are_post_columns(table.columns.as_slice())
}

/// Whether both tables of the archive are there, and nothing else.
#[tactic(auto, using(crate::proofs::ShapeLemmas::schema_is))]
pub fn is_ours(schema: &Schema) -> bool
    ensures yes { IsTrue result → schema.now ≡ archive_schema }
    ensures no { schema.now ≡ archive_schema → IsTrue result }
{
    if !schema.indexes.is_empty() || !schema.views.is_empty() {
        return false;
    }
    match schema.tables.as_slice() {
        [head, post] => is_head(head) && is_post(post),
        _ => false,
    }
}

/// Whether nothing was made yet.
pub fn is_blank(schema: &Schema) -> bool
    ensures yes { IsTrue result → schema.now ≡ no_schema }
    ensures no { schema.now ≡ no_schema → IsTrue result }
{
    if !schema.indexes.is_empty() || !schema.views.is_empty() {
        return false;
    }
    schema.tables.is_empty()
}
