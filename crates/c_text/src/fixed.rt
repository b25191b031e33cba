//! The parts of the C text that are the same in all programs. The one error is a refused growth.

ghost use Rattle.std.specs.Prelude.{OnOk};
ghost use Rattle.locks.specs.Texts.{AddsText};
ghost use Rattle.c_text.specs.Fixed as text;

use std::alloc::AllocError;

/// Appends the types of all programs, and the words for locks.
#[tactic(auto, unfolding(crate::specs::Fixed::types_text))]
pub fn push_types(out: &mut String) -> Result<(), AllocError>
    ensures { OnOk result (AddsText text.types_text out.old out.new) }
{
    out.push_str(
        r#"#include <stddef.h>
#include <stdint.h>
#ifdef AL_HISTORY
#include <stdio.h>
#endif
#ifndef AL_MUTEX                /* the kind of lock: replace all five together */
#include <pthread.h>
#define AL_MUTEX pthread_mutex_t
#define AL_MUTEX_OPEN(m) pthread_mutex_init((m), NULL)
#define AL_MUTEX_CLOSE(m) pthread_mutex_destroy(m)
#define AL_LOCK(m) pthread_mutex_lock(m)
#define AL_UNLOCK(m) pthread_mutex_unlock(m)
#endif
#ifndef AL_LINE                 /* each lock begins a cache line; 8 packs them */
#define AL_LINE 64
#endif
#ifndef AL_TYPES
#define AL_TYPES
#ifdef __cplusplus
#define AL_ALIGNED alignas(AL_LINE)
#else
#define AL_ALIGNED _Alignas(AL_LINE)
#endif
/* How a section ended: its trap, or 0; and its result. */
struct autolock_end { int trap; };
struct autolock_int { int trap; int64_t value; };
/* What a section printed. */
struct autolock_prints { int count; int64_t value[256]; };
struct autolock_history;
#endif
"#,
    )
}

/// Appends the text before the declarations.
#[tactic(auto, unfolding(crate::specs::Fixed::opened_text))]
pub fn push_opened(out: &mut String) -> Result<(), AllocError>
    ensures { OnOk result (AddsText text.opened_text out.old out.new) }
{
    out.push_str(
        r#"#ifdef __cplusplus
extern "C" {
#endif
"#,
    )
}

/// Appends the text after the declarations.
#[tactic(auto, unfolding(crate::specs::Fixed::closed_text))]
pub fn push_closed(out: &mut String) -> Result<(), AllocError>
    ensures { OnOk result (AddsText text.closed_text out.old out.new) }
{
    out.push_str(
        r#"#ifdef __cplusplus
}
#endif
#endif
"#,
    )
}

/// Appends the functions for sums, differences and products.
#[tactic(auto, unfolding(crate::specs::Fixed::arithmetic_text))]
pub fn push_arithmetic(out: &mut String) -> Result<(), AllocError>
    ensures { OnOk result (AddsText text.arithmetic_text out.old out.new) }
{
    out.push_str(
        r#"#ifndef AL_HELPERS
#define AL_HELPERS
#ifdef __GNUC__
#pragma GCC diagnostic ignored "-Wtautological-compare"
#pragma GCC diagnostic ignored "-Wtype-limits"
#pragma GCC diagnostic ignored "-Wdiv-by-zero"
#ifdef __clang__
#pragma GCC diagnostic ignored "-Wself-assign"
#endif
#define AL_INLINE static inline __attribute__((unused))
#define AL_RARE(x) __builtin_expect(!!(x), 0)
#else
#define AL_INLINE static inline
#define AL_RARE(x) (x)
#endif
#define AL_TRAP(k) do { trap = (k); goto end; } while (0)
/* Trap k, where p is NULL, and where i is no index below n. */
#define AL_NULL(p, k) if (AL_RARE((p) == NULL)) AL_TRAP(k)
#define AL_OUT(i, n, k) if (AL_RARE((uint64_t)(i) >= (n))) AL_TRAP(k)
/* r is the sum, the difference, the product of a and b, or trap 3, where 64 bits do not hold it. */
#define AL_ADD(r, a, b) if (AL_RARE(autolock_add((a), (b), &(r)))) AL_TRAP(3)
#define AL_SUB(r, a, b) if (AL_RARE(autolock_sub((a), (b), &(r)))) AL_TRAP(3)
#define AL_MUL(r, a, b) if (AL_RARE(autolock_mul((a), (b), &(r)))) AL_TRAP(3)
/* A sum, a difference and a product, by r; 1 where 64 bits do not hold it. */
#if defined(__GNUC__) && !defined(AL_PORTABLE)
AL_INLINE int autolock_add(int64_t a, int64_t b, int64_t *r) { return __builtin_add_overflow(a, b, r); }
AL_INLINE int autolock_sub(int64_t a, int64_t b, int64_t *r) { return __builtin_sub_overflow(a, b, r); }
AL_INLINE int autolock_mul(int64_t a, int64_t b, int64_t *r) { return __builtin_mul_overflow(a, b, r); }
#else
AL_INLINE int autolock_add(int64_t a, int64_t b, int64_t *r)
{
  if (b >= 0 ? a > INT64_MAX - b : a < INT64_MIN - b) return 1;
  *r = a + b;
  return 0;
}
AL_INLINE int autolock_sub(int64_t a, int64_t b, int64_t *r)
{
  if (b >= 0 ? a < INT64_MIN + b : a > INT64_MAX + b) return 1;
  *r = a - b;
  return 0;
}
AL_INLINE int autolock_mul(int64_t a, int64_t b, int64_t *r)
{
  if (a > 0 ? (b > 0 ? a > INT64_MAX / b : b < INT64_MIN / a)
            : (b > 0 ? a < INT64_MIN / b : a != 0 && b < INT64_MAX / a))
    return 1;
  *r = a * b;
  return 0;
}
#endif
"#,
    )
}

/// Appends the functions for lists of locks.
#[tactic(auto, unfolding(crate::specs::Fixed::locking_text))]
pub fn push_locking(out: &mut String) -> Result<(), AllocError>
    ensures { OnOk result (AddsText text.locking_text out.old out.new) }
{
    out.push_str(
        r#"/* Puts the lesser address first. */
#define AL_ORDER(x, y) \
  do { if ((uintptr_t)(y) < (uintptr_t)(x)) { AL_MUTEX *z_ = (x); (x) = (y); (y) = z_; } } while (0)
/* Of k locks, none is left that is among the p held ones, or that comes again. */
AL_INLINE void autolock_drop(AL_MUTEX **m, int k, AL_MUTEX *const *h, int p)
{
  int i, j;
  for (j = k - 1; j >= 0; j--) {
    for (i = 0; i < p; i++) if (m[j] == h[i]) m[j] = NULL;
    for (i = j + 1; i < k; i++) if (m[j] == m[i]) m[j] = NULL;
  }
}
AL_INLINE void autolock_order(AL_MUTEX **m, int k)
{
  int i, j;
  for (j = k - 2; j >= 0; j--)
    for (i = j; i <= k - 2; i++) AL_ORDER(m[i], m[i + 1]);
}
AL_INLINE void autolock_lock(AL_MUTEX **m, int k)
{
  int i;
  for (i = 0; i < k; i++) if (m[i] != NULL) AL_LOCK(m[i]);
}
"#,
    )
}

/// Appends the start of the program that runs the threads.
#[tactic(auto, unfolding(crate::specs::Fixed::runs_text))]
pub fn push_runs(out: &mut String) -> Result<(), AllocError>
    ensures { OnOk result (AddsText text.runs_text out.old out.new) }
{
    out.push_str(
        r#"#ifdef AL_MAIN
#include <pthread.h>
#include <string.h>
struct autolock_call { int section; int64_t a[8]; };
"#,
    )
}
