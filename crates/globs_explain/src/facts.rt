//! What is known of a glob before any path is looked at.

use crate::page::Page;
use std::alloc::Global;
use wax::query::{DepthVariance, When};
use wax::{Glob, NoMemory, Program};

/// Adds the depth, the only text, the root and the exhaustiveness, each on a line.
pub fn add_facts(alloc: Global, glob: &Glob<'_>, page: &mut Page) -> Result<(), NoMemory> {
    add_depth(glob.depth(), page);
    page.add("text        ");
    match glob.text(alloc)?.as_path() {
        Some(text) => add_text(text, "the empty text", page),
        None => page.add("varies"),
    }
    page.add("\nroot        ");
    page.add(when(glob.has_root()));
    page.add("\nexhaustive  ");
    page.add(when(glob.is_exhaustive()));
    page.add("\n");
    Ok(())
}

fn add_depth(depth: DepthVariance, page: &mut Page) {
    let lower = depth.lower();
    page.add("depth       ");
    page.show(&lower);
    match depth.upper() {
        None => page.add(" or more"),
        Some(upper) if upper == lower => {}
        Some(upper) => {
            page.add(" to ");
            page.show(&upper);
        }
    }
    page.add("\n");
}

fn when(answer: When) -> &'static str {
    match answer {
        When::Never => "never",
        When::Sometimes => "sometimes",
        When::Always => "always",
    }
}

/// Adds the prefix and the rest, each on a line.
pub fn add_parts(alloc: Global, glob: Glob<'_>, page: &mut Page) {
    let Ok((prefix, rest)) = glob.partition(alloc) else {
        return page.lose();
    };
    page.add("prefix      ");
    add_text(&prefix, "none", page);
    page.add("\nrest        ");
    match &rest {
        Some(rest) => add_text(rest.expression(), "the empty expression", page),
        None => page.add("none"),
    }
    page.add("\n");
}

/// Adds a text, or `empty` in place of an empty one.
fn add_text(text: &str, empty: &str, page: &mut Page) {
    if text.is_empty() {
        page.add(empty);
    } else {
        page.whole(text);
    }
}
