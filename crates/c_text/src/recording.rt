//! The recorder, which is the same in all programs. The one error is a refused growth.

ghost use Rattle.std.specs.Prelude.{OnOk};
ghost use Rattle.locks.specs.Texts.{AddsText};
ghost use Rattle.c_text.specs.Recording as text;

use std::alloc::AllocError;

/// Appends the functions that write prints.
#[tactic(auto, unfolding(crate::specs::Recording::writing_text))]
fn push_writing(out: &mut String) -> Result<(), AllocError>
    ensures { OnOk result (AddsText text.writing_text out.old out.new) }
{
    out.push_str(
        r#"#if defined(AL_MAIN) || defined(AL_HISTORY)
#include <inttypes.h>
#include <stdio.h>
/* A line for each of these numbers. */
AL_INLINE void autolock_write_prints(FILE *f, int count, const int64_t *value)
{
  int i;
  for (i = 0; i < count; i++) fprintf(f, "print %" PRId64 "\n", value[i]);
}
#endif
"#,
    )
}

/// Appends the structs of a history.
#[tactic(auto, unfolding(crate::specs::Recording::entries_text))]
fn push_entries(out: &mut String) -> Result<(), AllocError>
    ensures { OnOk result (AddsText text.entries_text out.old out.new) }
{
    out.push_str(
        r#"#ifdef AL_HISTORY
#include <stdatomic.h>
#include <stdlib.h>
#ifndef AL_MALLOC               /* the memory of histories: replace both together */
#define AL_MALLOC(n) malloc(n)
#define AL_FREE(p) free(p)
#endif
/* How many bytes of entries a block has, and more than one entry takes. */
#define AL_BLOCK 65536
#define AL_ENTRY 2304
/* A call: its place in the history, how long the history was when it began, how it ended; then its
   arguments, and its prints. */
struct autolock_entry {
  int64_t place, begun, value;
  short section, trap, arguments, prints;
  int64_t word[];
};
/* Entries one behind another, up to `end`. */
struct autolock_block {
  struct autolock_block *next;
  char *end;
  int64_t room[AL_BLOCK / 8];
};
/* The calls of a thread, in blocks. The last has room for an entry where its end is not behind `full`. */
struct autolock_seat {
  struct autolock_seat *next;
  struct autolock_history *history;
  const void *thread;
  int64_t number;
  struct autolock_block *first, *last;
  char *full;
  struct autolock_prints prints;
  struct autolock_block *block;  /* what was read: all ahead of `read` in this block, so many calls */
  char *read;
  int64_t told;
};
/* Its lock is for what stands ahead of the length. */
struct autolock_history {
  AL_MUTEX lock;
  int64_t number, seats;
  int refused;
  struct autolock_seat *first;
  char ahead[64];
  _Atomic int64_t length;
  char behind[64];
};
static _Atomic int64_t autolock_histories;
/* The seat that the thread had last, and the number of its history. */
static _Thread_local struct { int64_t history; struct autolock_seat *seat; } autolock_here;
"#,
    )
}

/// Appends the functions that open and close a history.
#[tactic(auto, unfolding(crate::specs::Recording::opening_text))]
fn push_opening(out: &mut String) -> Result<(), AllocError>
    ensures { OnOk result (AddsText text.opening_text out.old out.new) }
{
    out.push_str(
        r#"/* A history without calls, or NULL. */
AL_INLINE struct autolock_history *autolock_history_open(void)
{
  struct autolock_history *h = (struct autolock_history *)AL_MALLOC(sizeof *h);
  if (h == NULL) return NULL;
  AL_MUTEX_OPEN(&h->lock);
  h->number = atomic_fetch_add(&autolock_histories, 1) + 1;
  h->seats = 0;
  h->refused = 0;
  h->first = NULL;
  atomic_init(&h->length, 0);
  return h;
}
AL_INLINE void autolock_history_close(struct autolock_history *h)
{
  while (h->first != NULL) {
    struct autolock_seat *seat = h->first;
    h->first = seat->next;
    while (seat->first != NULL) {
      struct autolock_block *block = seat->first;
      seat->first = block->next;
      AL_FREE(block);
    }
    AL_FREE(seat);
  }
  AL_MUTEX_CLOSE(&h->lock);
  AL_FREE(h);
}
"#,
    )
}

/// Appends the functions for the seats of threads.
#[tactic(auto, unfolding(crate::specs::Recording::seats_text))]
fn push_seats(out: &mut String) -> Result<(), AllocError>
    ensures { OnOk result (AddsText text.seats_text out.old out.new) }
{
    out.push_str(
        r#"/* An empty block behind the others; 0 where memory is refused. */
AL_INLINE int autolock_extend(struct autolock_seat *seat)
{
  struct autolock_block *block = (struct autolock_block *)AL_MALLOC(sizeof *block);
  if (block == NULL) return 0;
  block->next = NULL;
  block->end = (char *)block->room;
  if (seat->last != NULL) seat->last->next = block;
  else seat->first = block;
  seat->last = block;
  seat->full = block->end + (AL_BLOCK - AL_ENTRY);
  return 1;
}
/* A new seat of the thread, or NULL. */
AL_INLINE struct autolock_seat *autolock_new_seat(struct autolock_history *h, int64_t number)
{
  struct autolock_seat *seat = (struct autolock_seat *)AL_MALLOC(sizeof *seat);
  if (seat == NULL) return NULL;
  seat->history = h;
  seat->thread = &autolock_here;
  seat->number = number;
  seat->first = NULL;
  seat->last = NULL;
  if (!autolock_extend(seat)) {
    AL_FREE(seat);
    return NULL;
  }
  seat->next = h->first;
  h->first = seat;
  h->seats = number + 1;
  return seat;
}
/* The seat of the thread, with room for an entry; NULL where memory is or was refused. A number other than
   -1 is that of a new seat. */
static struct autolock_seat *autolock_sit(struct autolock_history *h, int64_t number)
{
  struct autolock_seat *seat = NULL;
  AL_LOCK(&h->lock);
  if (number < 0) {
    number = h->seats;
    for (seat = h->first; seat != NULL; seat = seat->next)
      if (seat->thread == &autolock_here) break;
  }
  if (seat == NULL && !h->refused) seat = autolock_new_seat(h, number);
  if (seat != NULL && seat->last->end > seat->full)
    if (h->refused || !autolock_extend(seat)) seat = NULL;
  if (seat == NULL) h->refused = 1;
  AL_UNLOCK(&h->lock);
  autolock_here.history = seat != NULL ? h->number : 0;
  autolock_here.seat = seat;
  return seat;
}
"#,
    )
}

/// Appends the functions that record the begin and the end of a call.
#[tactic(auto, unfolding(crate::specs::Recording::recording_text))]
fn push_recording(out: &mut String) -> Result<(), AllocError>
    ensures { OnOk result (AddsText text.recording_text out.old out.new) }
{
    out.push_str(
        r#"/* A call begins, and has no lock yet. */
AL_INLINE struct autolock_seat *autolock_begin(struct autolock_history *h, int section, int count,
                                               const int64_t *a)
{
  struct autolock_seat *seat = autolock_here.seat;
  struct autolock_entry *e;
  int i;
  if (h == NULL) return NULL;
  if (AL_RARE(autolock_here.history != h->number || seat->last->end > seat->full)) {
    seat = autolock_sit(h, -1);
    if (seat == NULL) return NULL;
  }
  e = (struct autolock_entry *)seat->last->end;
  e->begun = atomic_load_explicit(&h->length, memory_order_relaxed);
  e->section = (short)section;
  e->arguments = (short)count;
  for (i = 0; i < count; i++) e->word[i] = a[i];
  return seat;
}
/* It ends, and has all its locks. A call that ends with trap 7 did nothing, and has no entry. */
AL_INLINE void autolock_ended(struct autolock_seat *seat, int trap, int64_t value, int prints,
                              const struct autolock_prints *out)
{
  struct autolock_entry *e;
  int i;
  if (seat == NULL || trap == 7) return;
  e = (struct autolock_entry *)seat->last->end;
  e->place = atomic_fetch_add_explicit(&seat->history->length, 1, memory_order_relaxed);
  e->value = value;
  e->trap = (short)trap;
  e->prints = (short)prints;
  for (i = 0; i < prints; i++) e->word[e->arguments + i] = out->value[i];
  seat->last->end = (char *)(e->word + e->arguments + prints);
}
"#,
    )
}

/// Appends the functions that read a history.
#[tactic(auto, unfolding(crate::specs::Recording::reading_text))]
fn push_reading(out: &mut String) -> Result<(), AllocError>
    ensures { OnOk result (AddsText text.reading_text out.old out.new) }
{
    out.push_str(
        r#"/* The next entry of a seat, or NULL. */
AL_INLINE const struct autolock_entry *autolock_next(struct autolock_seat *seat)
{
  struct autolock_entry *e;
  while (seat->read == seat->block->end) {
    if (seat->block->next == NULL) return NULL;
    seat->block = seat->block->next;
    seat->read = (char *)seat->block->room;
  }
  e = (struct autolock_entry *)seat->read;
  seat->read = (char *)(e->word + e->arguments + e->prints);
  return e;
}
/* No entry was read. */
AL_INLINE void autolock_reread(struct autolock_history *h)
{
  struct autolock_seat *seat;
  for (seat = h->first; seat != NULL; seat = seat->next) {
    seat->block = seat->first;
    seat->read = (char *)seat->first->room;
    seat->told = 0;
  }
}
/* For each place of the history, the seat whose entry is there; NULL where memory is or was refused, or a
   place has no entry. */
AL_INLINE struct autolock_seat **autolock_places(struct autolock_history *h)
{
  int64_t i, found = 0, length = atomic_load(&h->length);
  struct autolock_seat **at = NULL;
  struct autolock_seat *seat;
  const struct autolock_entry *e;
  if (!h->refused) at = (struct autolock_seat **)AL_MALLOC(((size_t)length + 1) * sizeof *at);
  if (at == NULL) return NULL;
  for (i = 0; i < length; i++) at[i] = NULL;
  autolock_reread(h);
  for (seat = h->first; seat != NULL; seat = seat->next)
    for (e = autolock_next(seat); e != NULL; e = autolock_next(seat)) {
      found += at[e->place] == NULL;
      at[e->place] = seat;
    }
  autolock_reread(h);
  if (found == length) return at;
  AL_FREE(at);
  return NULL;
}
#endif
#endif
"#,
    )
}

/// Appends the recorder.
#[tactic(auto, unfolding(crate::specs::Recording::recorder_text))]
pub fn push_recorder(out: &mut String) -> Result<(), AllocError>
    ensures { OnOk result (AddsText text.recorder_text out.old out.new) }
{
    push_writing(out)?;
    push_entries(out)?;
    push_opening(out)?;
    push_seats(out)?;
    push_recording(out)?;
    push_reading(out)
}
