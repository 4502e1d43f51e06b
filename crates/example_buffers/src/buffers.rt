//! A pool of buffers without a lock: a permit for each in one atomic word, and a mark on each while somebody has it.

ghost use Rattle.std.specs.Prelude.{◌≡◌, ◌<◌, All, IfOk, vec_len};
ghost use Rattle.saa_word_forms.specs.WordSemaphores.{IsDealtBy};

use saa_word_forms::{Place, SemaphoreOf};
use std::alloc::{AllocError, Global};
use std::sync::Wait;
use std::sync::atomic::{AtomicBool, AtomicU64, Ordering};
use std::thread::yield_now;

/// A buffer, which one worker has at a time.
#[derive(Drop)]
pub struct Buffer {
    is_taken: AtomicBool,
    words: [AtomicU64; 4],
}

impl Buffer {
    // A buffer that nobody has.
    fn new() -> Self {
        Buffer {
            is_taken: AtomicBool::new(false),
            words: [
                AtomicU64::new(0),
                AtomicU64::new(0),
                AtomicU64::new(0),
                AtomicU64::new(0),
            ],
        }
    }

    // Whether this call took it.
    fn take(&self) -> bool {
        !self.is_taken.swap(true, Ordering::SeqCst)
    }

    // Lets others take it.
    fn put_back(&self) {
        self.is_taken.store(false, Ordering::SeqCst);
    }

    /// Writes a number into each of its words.
    pub fn fill(&self, number: u64) {
        for word in &self.words {
            word.store(number, Ordering::SeqCst);
        }
    }

    /// Whether each of its words has this number.
    pub fn is_full_of(&self, number: u64) -> bool {
        for word in &self.words {
            if word.load(Ordering::SeqCst) != number {
                return false;
            }
        }
        true
    }
}

/// `MAX` buffers, 1 to 65,535, for so many workers as it has places.
#[derive(Drop)]
pub struct Pool<const MAX: usize> {
    permits: SemaphoreOf<MAX>,
    buffers: Vec<Buffer>,
    ghost whole: { vec_len buffers ≡ MAX },
}

impl<const MAX: usize> Pool<MAX> {
    /// A pool, and a place of it for each worker.
    #[tactic(auto, using(crate::proofs::Dealt::new_dealt))]
    pub fn new(alloc: Global, workers: u16) -> Result<(Self, Vec<Place>), AllocError>
        requires bound { 0 < MAX }
        requires narrow { MAX < 65536 }
        ensures count { IfOk result (λ made. vec_len made.1 ≡ workers) }
        ensures dealt { IfOk result (λ made. All (λ place. IsDealtBy made.0.permits place) made.1.items) }
    {
        let (permits, places) = SemaphoreOf::new(alloc, 0, workers)?;
        let buffers = buffers(alloc, MAX)?;
        Ok((Pool { permits, buffers }, places))
    }
}

/// A worker's place at a pool. Each call asks for a place that the pool's semaphore dealt, and this type keeps that.
#[derive(Drop)]
pub struct Desk<'p, const MAX: usize> {
    pool: &'p Pool<MAX>,
    place: Place,
    ghost dealt: { IsDealtBy pool.now.permits place },
}

impl<'p, const MAX: usize> Desk<'p, MAX> {
    /// A desk at a pool.
    pub fn new(pool: &'p Pool<MAX>, place: Place) -> Self
        requires { IsDealtBy pool.now.permits place }
    {
        Desk { pool, place }
    }

    /// Takes a buffer, and waits for one where all are taken. `None` is for a place that waits already, which no call here leaves behind.
    pub fn check_out<R: Wait>(&mut self, rt: &R) -> Option<&'p Buffer> {
        let pool = self.pool;
        if !pool.permits.acquire_many(rt, &mut self.place, 1) {
            return None;
        }
        // A permit's holder finds a free buffer: no more permits are out than there are buffers, and a buffer is put back before its permit.
        for _ in rt.forever() {
            for buffer in &pool.buffers {
                if buffer.take() {
                    return Some(buffer);
                }
            }
            yield_now();
        }
        unreachable!()
    }

    /// Puts a buffer back, and grants the oldest waiter.
    pub fn give_back<R: Wait>(&mut self, rt: &R, buffer: &Buffer) {
        buffer.put_back();
        let _ = self.pool.permits.release_many(rt, &mut self.place, 1);
    }

    /// How many buffers are free.
    pub fn free(&mut self) -> u16 {
        self.pool.permits.available_permits(&mut self.place)
    }
}

// So many buffers that nobody has.
fn buffers(alloc: Global, count: usize) -> Result<Vec<Buffer>, AllocError>
    ensures { IfOk result (λ made. vec_len made ≡ count) }
{
    let mut made = Vec::new(alloc);
    for _buffer in 0..count {
        made.push(Buffer::new())?;
    }
    Ok(made)
}
