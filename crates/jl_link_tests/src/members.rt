//! Rows of references to fields and methods (JVMS 5.4.3.2 to 5.4.3.4).

use crate::references::ONE_LOADER;
use crate::steps::{Row, hold};
use std::test::Fail;

static FIELDS: [Row; 14] = [
    (
        "a:p/A 0021 Fp/B,x,I | a:p/B 0021 f0001,x,I",
        "ref p/A 0, slots p/A",
        "p/B@1.x, [2=p/B@1 6=p/B@1.x]",
    ),
    (
        "a:p/A 0021 Fp/B,x,I | a:p/B 0021 <p/S :p/I f0001,x,I | a:p/S 0021 f0001,x,I | a:p/I 0601 f0019,x,I",
        "ref p/A 0",
        "p/B@1.x",
    ),
    (
        "a:p/A 0021 Fp/B,x,I | a:p/B 0021 <p/S :p/I | a:p/S 0021 f0001,x,I | a:p/I 0601 f0019,x,I",
        "ref p/A 0",
        "p/I@1.x",
    ),
    (
        "a:p/A 0021 Fp/B,x,I | a:p/B 0021 <p/S | a:p/S 0021 f0001,x,I",
        "ref p/A 0",
        "p/S@1.x",
    ),
    (
        "a:p/A 0021 Fp/B,x,I | a:p/B 0021 <p/S | a:p/S 0021 :p/I | a:p/I 0601 f0019,x,I",
        "ref p/A 0",
        "p/I@1.x",
    ),
    (
        "a:p/A 0021 Fp/B,x,I | a:p/B 0021 :p/J :p/L | a:p/J 0601 :p/K | a:p/K 0601 f0019,x,I | a:p/L 0601 f0019,x,I",
        "ref p/A 0",
        "p/K@1.x",
    ),
    (
        "a:p/A 0021 Fp/B,x,I | a:p/B 0021 :p/J :p/L | a:p/J 0601 :p/K | a:p/K 0601 | a:p/L 0601 :p/K f0019,x,I",
        "ref p/A 0",
        "p/L@1.x",
    ),
    (
        "a:p/A 0021 Fp/I,x,I | a:p/I 0601 f0019,x,I",
        "ref p/A 0",
        "p/I@1.x",
    ),
    (
        "a:p/A 0021 Fp/B,x,I | a:p/B 0021 f0001,x,J",
        "ref p/A 0",
        "NoSuchFieldError p.B.x",
    ),
    (
        "a:p/A 0021 Fp/B,x,I | a:p/B 0021 <p/S f0001,x,J | a:p/S 0021 f0001,x,I",
        "ref p/A 0",
        "p/S@1.x",
    ),
    (
        "a:p/A 0021 Fp/B,x,I | a:p/B 0021",
        "ref p/A 0, ref p/A 0, slots p/A",
        "NoSuchFieldError p.B.x, NoSuchFieldError p.B.x, [2=p/B@1 6=NoSuchFieldError]",
    ),
    (
        "a:p/A 0021 Fp/Z,x,I",
        "ref p/A 0, slots p/A",
        "NoClassDefFoundError p.Z, [2=NoClassDefFoundError 6=NoClassDefFoundError]",
    ),
    (
        "a:p/A 0021 F[I,length,I",
        "ref p/A 0",
        "NoSuchFieldError [I.length",
    ),
    (
        "a:p/A 0021 f0001,x,I f0001,y,I Fp/A,y,I Fp/B,y,I Fp/B,z,I | a:p/B 0021 f0001,x,I f0001,y,I f0001,z,I",
        "ref p/A 0, ref p/A 1, ref p/A 2",
        "p/A@1.y, p/B@1.y, p/B@1.z",
    ),
];

static METHODS: [Row; 20] = [
    (
        "a:p/A 0021 Mp/B,f,()V | a:p/B 0021 m0001,f,()V",
        "ref p/A 0, slots p/A",
        "p/B@1.f, [2=p/B@1 6=p/B@1.f]",
    ),
    (
        "a:p/A 0021 Mp/B,f,()V | a:p/B 0021 <p/S | a:p/S 0021 m0001,f,()V",
        "ref p/A 0",
        "p/S@1.f",
    ),
    (
        "a:p/A 0021 Mp/B,f,()V | a:p/B 0021 <p/S m0001,f,()V | a:p/S 0021 m0001,f,()V",
        "ref p/A 0",
        "p/B@1.f",
    ),
    (
        "a:p/A 0021 Mp/B,f,()V | a:p/B 0021 <p/S :p/I | a:p/S 0021 m0001,f,()V | a:p/I 0601 m0001,f,()V",
        "ref p/A 0",
        "p/S@1.f",
    ),
    (
        "a:p/A 0021 Mp/B,f,()V | a:p/B 0021 <p/S :p/I | a:p/S 0421 m0401,f,()V | a:p/I 0601 m0001,f,()V",
        "ref p/A 0",
        "p/S@1.f",
    ),
    (
        "a:p/A 0021 Mp/B,f,()V | a:p/B 0421 :p/I | a:p/I 0601 m0401,f,()V",
        "ref p/A 0",
        "p/I@1.f",
    ),
    (
        "a:p/A 0021 Mp/B,f,()V | a:p/B 0421 <p/S | a:p/S 0421 :p/I | a:p/I 0601 m0401,f,()V",
        "ref p/A 0",
        "p/I@1.f",
    ),
    (
        "a:p/A 0021 Mp/B,f,()V | a:p/B 0021 :p/I :p/J | a:p/I 0601 m0001,f,()V | a:p/J 0601 :p/I m0001,f,()V",
        "ref p/A 0",
        "p/J@1.f",
    ),
    (
        "a:p/A 0021 Mp/B,f,()V | a:p/B 0021 :p/I :p/J | a:p/I 0601 m0401,f,()V | a:p/J 0601 m0001,f,()V",
        "ref p/A 0",
        "p/J@1.f",
    ),
    (
        "a:p/A 0021 Mp/B,f,()V | a:p/B 0021 :p/I :p/J | a:p/I 0601 m0001,f,()V | a:p/J 0601 m0001,f,()V",
        "ref p/A 0",
        "p/I@1.f",
    ),
    (
        "a:p/A 0021 Mp/B,f,()V | a:p/B 0421 :p/I :p/J | a:p/I 0601 m0401,f,()V | a:p/J 0601 m0401,f,()V",
        "ref p/A 0",
        "p/I@1.f",
    ),
    (
        "a:p/A 0021 Mp/B,f,()V | a:p/B 0021 :p/I | a:p/I 0601 m0009,f,()V",
        "ref p/A 0",
        "NoSuchMethodError p.B.f",
    ),
    (
        "a:p/A 0021 Mp/B,f,()V | a:p/B 0021 :p/I | a:p/I 0601 m0002,f,()V",
        "ref p/A 0",
        "NoSuchMethodError p.B.f",
    ),
    (
        "a:p/A 0021 Mp/B,f,()V | a:p/B 0021 m0009,f,()V",
        "ref p/A 0",
        "p/B@1.f",
    ),
    (
        "a:p/A 0021 Mp/B,f,()V | a:p/B 0021 m0001,f,(I)V m0001,f,()I",
        "ref p/A 0",
        "NoSuchMethodError p.B.f",
    ),
    (
        "a:p/A 0021 Mp/B,hashCode,()I | a:p/B 0021",
        "ref p/A 0",
        "java/lang/Object@1.hashCode",
    ),
    (
        "a:p/A 0021 Mp/I,f,()V | a:p/I 0601 m0401,f,()V",
        "ref p/A 0, slots p/A",
        "IncompatibleClassChangeError p.I.f, [2=p/I@1 6=IncompatibleClassChangeError]",
    ),
    (
        "a:p/A 0021 Ip/B,f,()V | a:p/B 0021 m0001,f,()V",
        "ref p/A 0",
        "IncompatibleClassChangeError p.B.f",
    ),
    (
        "a:p/A 0021 Mp/Z,f,()V",
        "ref p/A 0",
        "NoClassDefFoundError p.Z",
    ),
    (
        "a:p/A 0021 m0001,f,()V m0001,g,()V Mp/A,g,()V Mp/B,g,()V | a:p/B 0021 m0001,f,()V m0001,g,()V",
        "ref p/A 0, ref p/A 1",
        "p/A@1.g, p/B@1.g",
    ),
];

static INTERFACE_METHODS: [Row; 10] = [
    (
        "a:p/A 0021 Ip/I,f,()V | a:p/I 0601 m0401,f,()V",
        "ref p/A 0",
        "p/I@1.f",
    ),
    (
        "a:p/A 0021 Ip/J,f,()V | a:p/J 0601 :p/I | a:p/I 0601 m0401,f,()V",
        "ref p/A 0",
        "p/I@1.f",
    ),
    (
        "a:p/A 0021 Ip/L,f,()V | a:p/L 0601 :p/J :p/K | a:p/J 0601 :p/I | a:p/K 0601 :p/I m0001,f,()V | a:p/I 0601 m0001,f,()V",
        "ref p/A 0",
        "p/K@1.f",
    ),
    (
        "a:p/A 0021 Ip/I,hashCode,()I | a:p/I 0601",
        "ref p/A 0",
        "java/lang/Object@1.hashCode",
    ),
    (
        "a:p/A 0021 Ip/J,hashCode,()I | a:p/J 0601 :p/I | a:p/I 0601 m0401,hashCode,()I",
        "ref p/A 0",
        "java/lang/Object@1.hashCode",
    ),
    (
        "a:p/A 0021 Ip/I,clone,()Ljava/lang/Object; | a:p/I 0601",
        "ref p/A 0",
        "NoSuchMethodError p.I.clone",
    ),
    (
        "a:p/A 0021 Ip/I,of,()V | a:p/I 0601",
        "ref p/A 0",
        "NoSuchMethodError p.I.of",
    ),
    (
        "a:p/A 0021 Ip/J,f,()V | a:p/J 0601 :p/I | a:p/I 0601 m0009,f,()V",
        "ref p/A 0",
        "NoSuchMethodError p.J.f",
    ),
    (
        "a:p/A 0021 Ip/I,f,()V | a:p/I 0601 m0009,f,()V",
        "ref p/A 0",
        "p/I@1.f",
    ),
    (
        "a:p/A 0021 Ip/I,f,()V | a:p/I 0601",
        "ref p/A 0",
        "NoSuchMethodError p.I.f",
    ),
];

static OF_ARRAYS: [Row; 5] = [
    (
        "a:p/A 0021 M[I,clone,()Ljava/lang/Object;",
        "ref p/A 0, slots p/A",
        "java/lang/Object@1.clone, [2=[I 6=java/lang/Object@1.clone]",
    ),
    (
        "a:p/A 0021 M[Lp/B;,clone,()Ljava/lang/Object; | a:p/B 0021",
        "ref p/A 0, count",
        "java/lang/Object@1.clone, 3",
    ),
    (
        "a:p/A 0021 M[I,hashCode,()I",
        "ref p/A 0",
        "java/lang/Object@1.hashCode",
    ),
    (
        "a:p/A 0021 M[I,length,()I",
        "ref p/A 0",
        "NoSuchMethodError [I.length",
    ),
    (
        "a:p/A 0021 I[I,clone,()Ljava/lang/Object;",
        "ref p/A 0",
        "IncompatibleClassChangeError [I.clone",
    ),
];

#[test]
fn fields(rt: HostRuntime) -> Result<(), Fail> {
    hold(rt.alloc(), ONE_LOADER, &FIELDS)
}

#[test]
fn methods(rt: HostRuntime) -> Result<(), Fail> {
    hold(rt.alloc(), ONE_LOADER, &METHODS)
}

#[test]
fn interface_methods(rt: HostRuntime) -> Result<(), Fail> {
    hold(rt.alloc(), ONE_LOADER, &INTERFACE_METHODS)
}

#[test]
fn methods_of_arrays(rt: HostRuntime) -> Result<(), Fail> {
    hold(rt.alloc(), ONE_LOADER, &OF_ARRAYS)
}
