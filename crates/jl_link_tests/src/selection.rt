//! Rows of the methods that are selected (JVMS 5.4.5, 5.4.6).

use crate::access::MANY_LOADERS;
use crate::references::ONE_LOADER;
use crate::steps::{Row, hold};
use std::test::Fail;

static CLASSES: [Row; 14] = [
    (
        "a:p/A 0021 m0002,f,()V | a:p/B 0021 <p/A m0001,f,()V",
        "select p/B p/A f ()V",
        "p/A@1.f",
    ),
    (
        "a:p/A 0021 m0001,f,()V | a:p/B 0021 <p/A m0001,f,()V",
        "select p/B p/A f ()V, select p/A p/A f ()V",
        "p/B@1.f, p/A@1.f",
    ),
    (
        "a:p/A 0021 m0001,f,()V | a:p/B 0021 <p/A | a:p/C 0021 <p/B m0001,f,()I",
        "select p/C p/A f ()V",
        "p/A@1.f",
    ),
    (
        "a:p/A 0021 m0001,f,()V | a:p/B 0021 <p/A m0001,f,()V | a:p/C 0021 <p/B",
        "select p/C p/A f ()V",
        "p/B@1.f",
    ),
    (
        "a:p/A 0021 m0004,f,()V | a:t/B 0021 <p/A m0004,f,()V",
        "select t/B p/A f ()V",
        "t/B@1.f",
    ),
    (
        "a:p/A 0021 m0000,f,()V | a:p/B 0021 <p/A m0000,f,()V",
        "select p/B p/A f ()V",
        "p/B@1.f",
    ),
    (
        "a:p/A 0021 m0000,f,()V | a:t/B 0021 <p/A m0001,f,()V",
        "select t/B p/A f ()V",
        "p/A@1.f",
    ),
    (
        "a:p/A 0021 m0001,f,()V | a:t/B 0021 <p/A m0000,f,()V",
        "select t/B p/A f ()V",
        "t/B@1.f",
    ),
    (
        "a:p/A 0021 m0000,f,()V | a:p/B 0021 <p/A m0001,f,()V | a:t/C 0021 <p/B m0001,f,()V",
        "select t/C p/A f ()V",
        "t/C@1.f",
    ),
    (
        "a:p/A 0021 m0000,f,()V | a:t/C 0021 <p/A m0001,f,()V | a:p/D 0021 <t/C m0001,f,()V",
        "select p/D p/A f ()V, select t/C p/A f ()V",
        "p/D@1.f, p/A@1.f",
    ),
    (
        "a:p/A 0021 m0000,f,()V | a:t/C 0021 <p/A m0000,f,()V | a:p/D 0021 <t/C m0000,f,()V | a:t/E 0021 <p/D m0000,f,()V",
        "select t/E p/A f ()V, select t/E t/C f ()V",
        "p/D@1.f, t/E@1.f",
    ),
    (
        "a:p/A 0021 m0001,f,()V | a:p/B 0021 <p/A m0009,f,()V",
        "select p/B p/A f ()V",
        "p/A@1.f",
    ),
    (
        "a:p/A 0021 m0001,f,()V | a:p/B 0021 <p/A m0002,f,()V",
        "select p/B p/A f ()V",
        "p/A@1.f",
    ),
    (
        "a:p/A 0021 m0001,f,()V | a:p/B 0421 <p/A m0401,f,()V",
        "select p/B p/A f ()V",
        "AbstractMethodError p.A.f",
    ),
];

static INTERFACES: [Row; 13] = [
    (
        "a:p/I 0601 m0001,f,()V | a:p/B 0021 :p/I",
        "select p/B p/I f ()V",
        "p/I@1.f",
    ),
    (
        "a:p/I 0601 m0401,f,()V | a:p/B 0021 :p/I m0001,f,()V",
        "select p/B p/I f ()V",
        "p/B@1.f",
    ),
    (
        "a:p/I 0601 m0001,f,()V | a:p/S 0021 m0001,f,()V | a:p/B 0021 <p/S :p/I",
        "select p/B p/I f ()V",
        "p/S@1.f",
    ),
    (
        "a:p/I 0601 m0001,f,()V | a:p/S 0021 m0009,f,()V | a:p/B 0021 <p/S :p/I",
        "select p/B p/I f ()V",
        "p/I@1.f",
    ),
    (
        "a:p/I 0601 m0001,f,()V | a:p/J 0601 :p/I m0001,f,()V | a:p/B 0021 :p/I :p/J",
        "select p/B p/I f ()V",
        "p/J@1.f",
    ),
    (
        "a:p/I 0601 m0001,f,()V | a:p/J 0601 m0001,f,()V | a:p/B 0021 :p/I :p/J",
        "select p/B p/I f ()V, select p/B p/J f ()V",
        "IncompatibleClassChangeError p.I.f, IncompatibleClassChangeError p.J.f",
    ),
    (
        "a:p/I 0601 m0401,f,()V | a:p/J 0601 m0001,f,()V | a:p/B 0021 :p/I :p/J",
        "select p/B p/I f ()V",
        "p/J@1.f",
    ),
    (
        "a:p/I 0601 m0001,f,()V | a:p/J 0601 :p/I m0401,f,()V | a:p/B 0021 :p/J",
        "select p/B p/I f ()V",
        "AbstractMethodError p.I.f",
    ),
    (
        "a:p/I 0601 m0401,f,()V | a:p/B 0021 :p/I",
        "select p/B p/I f ()V",
        "AbstractMethodError p.I.f",
    ),
    (
        "a:p/I 0601 m0001,f,()V | a:p/B 0421 :p/I m0401,f,()V",
        "select p/B p/I f ()V",
        "AbstractMethodError p.I.f",
    ),
    (
        "a:p/I 0601 m0401,f,()V | a:p/B 0021 m0001,f,()V",
        "select p/B p/I f ()V",
        "IncompatibleClassChangeError p.I.f",
    ),
    (
        "a:p/I 0601 m0002,f,()V | a:p/B 0021 :p/I m0001,f,()V",
        "select p/B p/I f ()V",
        "p/I@1.f",
    ),
    (
        "a:p/I 0601 m0001,f,()V | a:p/S 0021 :p/I | a:p/B 0021 <p/S",
        "select p/B p/I f ()V",
        "p/I@1.f",
    ),
];

static ACROSS: [Row; 3] = [
    (
        "n:p/A 0021 m0000,f,()V | n:q/M 0021 <p/A | m:p/B 0021 <q/M m0000,f,()V",
        "select p/B@2 p/A@3 f ()V",
        "p/A@3.f",
    ),
    (
        "n:p/A 0021 m0000,f,()V | n:q/M 0021 <p/A | m:p/B 0021 <q/M m0001,f,()V",
        "select p/B@2 p/A@3 f ()V, select p/B@2 p/B@2 f ()V",
        "p/A@3.f, p/B@2.f",
    ),
    (
        "n:p/A 0021 m0004,f,()V | n:q/M 0021 <p/A | m:p/B 0021 <q/M m0004,f,()V",
        "select p/B@2 p/A@3 f ()V",
        "p/B@2.f",
    ),
];

#[test]
fn of_classes(rt: HostRuntime) -> Result<(), Fail> {
    hold(rt.alloc(), ONE_LOADER, &CLASSES)
}

#[test]
fn of_interfaces(rt: HostRuntime) -> Result<(), Fail> {
    hold(rt.alloc(), ONE_LOADER, &INTERFACES)
}

#[test]
fn across_packages(rt: HostRuntime) -> Result<(), Fail> {
    hold(rt.alloc(), MANY_LOADERS, &ACROSS)
}
