//! The far side: a collector on loopback, which is busy at first.
use crate::gate::Gate;
use otlp_serve::{PostReply, ReplyStatus, TakeBody};
use std::alloc::Global;
use std::sync::{Arc, Wait};
use std::time::Clock;

/// What becomes of the first post.
#[derive(Drop)]
pub struct FirstPost {
    /// Opens once it came.
    pub came: Gate,
    /// It is answered once this is open.
    pub may_be_answered: Gate,
}

impl FirstPost {
    /// It hasn't come.
    pub fn new() -> FirstPost {
        FirstPost {
            came: Gate::new(),
            may_be_answered: Gate::new(),
        }
    }
}

/// Keeps the bodies of all posts.
#[derive(Drop)]
pub struct Bodies<R> {
    rt: R,
    first_post: Arc<FirstPost>,
    /// That of the first post, which is answered 503.
    pub first: Vec<u8>,
    /// Those of all others, one after the other, which are one body. Each is answered 200.
    pub taken: Vec<u8>,
}

impl<R> Bodies<R> {
    /// No post came.
    pub fn new(rt: R, alloc: Global, first_post: Arc<FirstPost>) -> Bodies<R> {
        Bodies {
            rt,
            first_post,
            first: Vec::new(alloc),
            taken: Vec::new(alloc),
        }
    }
}

impl<R: Wait + Clock> TakeBody for Bodies<R> {
    fn take(&mut self, body: Vec<u8>) -> PostReply {
        if self.first.is_empty() {
            self.first_post.came.open(&self.rt);
            let _ = self.first_post.may_be_answered.wait(&self.rt);
            self.first = body;
            return PostReply::of(ReplyStatus::ServiceUnavailable);
        }
        match self.taken.extend_from_slice(&body) {
            Ok(()) => PostReply::of(ReplyStatus::Ok),
            Err(_) => PostReply::of(ReplyStatus::ServiceUnavailable),
        }
    }
}
