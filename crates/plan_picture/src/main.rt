//! Draws the text of a plan, or with the word `order` an order text, from standard input as SVG on standard output; with the word
//! `page` it writes a page of HTML that plays the orders after a plan's text.
//!
//! The status is 0; 1 where reading or writing fails; 2 for other words; 3 where the text is refused, and then the whole output
//! is `refused LINE NAME`; and 6 where there is no memory to draw it.
#![tactic(auto)]

use plan_pages::{order_picture, plan_page};
use plan_pictures::lines::TextFault;
use plan_pictures::plan_picture;
use std::alloc::Global;
use std::env;
use std::io::{self, Read, Write};
use std::process::ExitCode;

/// What is drawn.
#[derive(Clone, Copy)]
enum Subject {
    Plan,
    Orders,
    Page,
}

/// What the words ask for. `None`: they are others.
fn asked(words: &[String]) -> Option<Subject> {
    match words {
        [] => Some(Subject::Plan),
        [word] if word.as_str() == "order" => Some(Subject::Orders),
        [word] if word.as_str() == "page" => Some(Subject::Page),
        _ => None,
    }
}

fn drawn(alloc: Global, subject: Subject, text: &[u8]) -> Result<String, TextFault> {
    match subject {
        Subject::Plan => plan_picture(alloc, text),
        Subject::Orders => order_picture(alloc, text),
        Subject::Page => plan_page(alloc, text),
    }
}

fn main(rt: HostRuntime) -> io::Result<ExitCode> {
    let mut words = Vec::new(rt.alloc());
    for word in env::args(&rt)?.skip(1) {
        words.push(word)?;
    }
    let Some(subject) = asked(words.as_slice()) else {
        println!(rt; "usage: plan_picture [order | page]")?;
        return Ok(ExitCode::from(2));
    };
    let mut text = Vec::new(rt.alloc());
    rt.reader().read_to_end(&mut text)?;
    match drawn(rt.alloc(), subject, text.as_slice()) {
        Ok(picture) => {
            io::writer(&rt).write_all(picture.as_bytes())?;
            Ok(ExitCode::SUCCESS)
        }
        Err(TextFault::Refused { line, name }) => {
            println!(rt; "refused {line} {name}")?;
            Ok(ExitCode::from(3))
        }
        Err(TextFault::NoMemory) => Ok(ExitCode::from(6)),
    }
}
