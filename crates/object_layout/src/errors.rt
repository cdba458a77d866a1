//! Why a lower call gives no answer.

use thiserror::Error;

/// An allocation was refused.
#[derive(Clone, Copy, Debug, PartialEq, Eq, Drop, Error)]
#[error("no memory")]
pub struct NoMemory;

/// No page of the heap is free.
#[derive(Clone, Copy, Debug, PartialEq, Eq, Drop, Error)]
#[error("no page is free")]
pub struct NoPage;

/// The store buffer of a thread has no room for another entry.
#[derive(Clone, Copy, Debug, PartialEq, Eq, Drop, Error)]
#[error("the store buffer is full")]
pub struct LogFull;

/// The stack of a thread has no room for another slot.
#[derive(Clone, Copy, Debug, PartialEq, Eq, Drop, Error)]
#[error("the stack is full")]
pub struct StackFull;

/// The stack of a thread has no slot.
#[derive(Clone, Copy, Debug, PartialEq, Eq, Drop, Error)]
#[error("the stack is empty")]
pub struct StackEmpty;

/// A slot number is at or past the length of a stack.
#[derive(Clone, Copy, Debug, PartialEq, Eq, Drop, Error)]
#[error("no such stack slot")]
pub struct BadSlot;

/// The heap has no room for an object, after a collection.
#[derive(Clone, Copy, Debug, PartialEq, Eq, Drop, Error)]
#[error("out of heap")]
pub struct OutOfHeap;
